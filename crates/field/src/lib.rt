// The limits of 01 and the reasons for a refusal, named once for all code. The proofs of the functions that use a limit tie it to its
// namesake in specs/Limits.antt; specs/Says.antt ties each reason to its number in specs/Refusals.antt.
#![tactic(auto)]

ghost use Rattle.std.specs.Prelude.{◌≡◌};
ghost use Rattle.field.specs.Says.{number_of};

use std::error::Error;
use std::fmt;

// 01, "Plan bytes", "Limits".
pub const PLAN_LIMIT: usize = 4096;

pub const DEPTH_LIMIT: usize = 32;

pub const ACTION_LIMIT: usize = 256;

pub const PLACE_LIMIT: usize = 2048;

pub const TRANSITION_LIMIT: usize = 1024;

pub const ARC_LIMIT: usize = 16384;

pub const RECORD_LIMIT: usize = 16384;

// 01, "Net tables": "second action or 65,535".
pub const NO_SECOND: usize = 65535;

/// Why a plan, a record, a table or a marking is refused: 01, "Refusal numbers", in the order of its table.
#[derive(Clone, Copy, Debug, PartialEq, Eq)]
pub enum Fault {
    PlanTooLong = 1,
    OperandDue = 8,
    TooDeep = 5,
    FieldCut = 2,
    UnknownTag = 3,
    WrongBody = 4,
    WrongLabel = 6,
    TooManyActions = 7,
    BytesAfter = 9,
    BodyNotExclusive = 10,
    TooManyPlaces = 11,
    TooManyTransitions = 12,
    TooManyArcs = 13,
    TableTooShort = 14,
    RecordTooLong = 20,
    RecordFieldCut = 21,
    WrongTag = 22,
    WrongLength = 23,
    NotRising = 24,
    NoNet = 30,
    NoMarking = 35,
    NoTransition = 31,
    InputEmpty = 32,
    InputShared = 33,
    TwoTokens = 36,
}

impl Fault {
    /// 01's number.
    pub fn number(self) -> usize
        ensures { result ≡ number_of self }
    {
        self as usize
    }

    /// The refusal for this reason, with what the answer carries.
    pub fn at(self, carried: usize) -> Refusal
        ensures { (result.fault ≡ self) × (result.carried ≡ carried) }
    {
        Refusal {
            fault: self,
            carried,
        }
    }
}

/// A refusal: 01, "Refusal numbers", "no." and "answer carries".
#[derive(Clone, Copy, Debug, PartialEq, Eq)]
pub struct Refusal {
    pub fault: Fault,
    pub carried: usize,
}

impl fmt::Display for Refusal {
    fn fmt<W: fmt::Write>(&self, f: &mut fmt::Formatter<W>) -> fmt::Result {
        write!(f, "refused {} at {}", self.fault.number(), self.carried)
    }
}

impl Error for Refusal {}
