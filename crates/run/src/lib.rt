// 01, "Refusal numbers": "Then the buffer gets the entry marking and each step in turn". A run of a record's steps on the rows and arcs of a
// net that is known to be in order, from a marking on.
#![tactic(auto)]

ghost use Rattle.std.specs.Prelude.{◌≡◌, true, ◌+◌, ◌≤◌, length, leb};
ghost use Rattle.field.specs.Lists.{all};
ghost use Rattle.algebra.specs.Net as algebra;
ghost use Rattle.form.specs.Form.{read_steps};
ghost use Rattle.moving.specs.inner.InOrder.{transitions_within, InOrder};
ghost use Rattle.run.specs.Run.{run};
ghost use Rattle.run.specs.Says.{ran_says};
ghost use Rattle.run.specs.inner.Ends.{Ends};

use field::Refusal;
use moving::Net;
use net::{CHAIN_END, Index, index_by_first};
use std::error::Error;
use std::fmt;
use step::firing::Indexed;

mod exits;
mod steps;

/// How a record's steps end where all of them fired: with all exits marked or not, after so many steps.
#[derive(Clone, Copy, Debug, PartialEq, Eq)]
pub enum Ran {
    Finished(usize),
    Unfinished(usize),
}

impl fmt::Display for Ran {
    fn fmt<W: fmt::Write>(&self, f: &mut fmt::Formatter<W>) -> fmt::Result {
        match self {
            Ran::Finished(steps) => write!(f, "finished {}", steps),
            Ran::Unfinished(steps) => write!(f, "unfinished {}", steps),
        }
    }
}

/// A refusal, and the number of accepted steps before it.
#[derive(Clone, Copy, Debug, PartialEq, Eq)]
pub struct Stopped {
    pub refusal: Refusal,
    pub steps: usize,
}

impl fmt::Display for Stopped {
    fn fmt<W: fmt::Write>(&self, f: &mut fmt::Formatter<W>) -> fmt::Result {
        write!(f, "{} after {}", self.refusal, self.steps)
    }
}

impl Error for Stopped {}

// The index is made here, once, so that a step costs only its items and their arcs.
fn run_net(net: Net, exits_from: usize, record: &[u8], marking: &mut [u8]) -> Result<Ran, Stopped>
    requires marking_length { length marking.old ≡ net.places }
    requires marking_value { all (λ x. leb x 1) marking.old ≡ true }
    requires exits_from_in_bounds { exits_from ≤ length marking.old }
    ensures { Ends result marking.new net.entry.rows.now net.entry.arcs.now net.entry.transitions exits_from 0 marking.old (read_steps 0 0 «record».now) }
{
    // `Index::new`, written out: what a function answers would be copied here.
    let mut index = Index {
        heads: [CHAIN_END; field::ACTION_LIMIT],
        nexts: [0; field::TRANSITION_LIMIT],
    };
    index_by_first(net.rows, net.transitions, &mut index);
    let indexed = Indexed { net, index: &index };
    steps::run_steps(indexed, exits_from, record, marking)
}

/// Runs a whole record on so many transitions of rows and arcs.
pub fn run_record<'a>(
    rows: &'a [u16],
    arcs: &'a [u16],
    transitions: usize,
    exits_from: usize,
    record: &[u8],
    marking: &mut [u8],
) -> Result<Ran, Stopped>
    requires in_order { InOrder rows.now arcs.now transitions (length marking.old) }
    requires marking_value { all (λ x. leb x 1) marking.old ≡ true }
    requires exits_from_in_bounds { exits_from ≤ length marking.old }
    ensures { (N : algebra.Net) → N.transitions ≡ transitions_within rows.now arcs.now transitions → N.entries + N.internals ≡ exits_from → (ran_says result ≡ (run N 0 marking.old (read_steps 0 0 «record».now)).verdict) × (marking.new ≡ (run N 0 marking.old (read_steps 0 0 «record».now)).marking) }
{
    let net = Net {
        rows,
        arcs,
        places: marking.len(),
        transitions,
    };
    run_net(net, exits_from, record, marking)
}
