// The node table: a row for each field of a plan, in the order of the bytes, so that a node stands before its operands and an operand's nodes
// stand together. It is the library's own work room, not lent.
ghost use Rattle.std.specs.Prelude.{◌≡◌, ◌+◌, ◌*◌, ◌≤◌, get_or};
ghost use Rattle.plan.specs.inner.Table.{after_at};
ghost use Rattle.plan.specs.inner.Numbers.{spelt, row_of, table_numbers, first_at};

use field::Fault;

/// 01, "Plan bytes": what a field is, by its tag.
#[derive(Clone, Copy, Debug, PartialEq, Eq)]
pub enum Tag {
    Action = 1,
    Sequence = 2,
    Choice = 3,
    Parallel = 4,
    Loop = 5,
    Scope = 6,
}

impl TryFrom<u16> for Tag {
    type Error = Fault;

    ghost try_from_gives = { λ number r. r ≡ spelt number };

    fn try_from(number: u16) -> Result<Self, Fault> {
        match number {
            1 => Ok(Tag::Action),
            2 => Ok(Tag::Sequence),
            3 => Ok(Tag::Choice),
            4 => Ok(Tag::Parallel),
            5 => Ok(Tag::Loop),
            6 => Ok(Tag::Scope),
            _ => Err(Fault::UnknownTag),
        }
    }
}

/// One field. A row is six numbers of any value, so that a table can be made before it is filled, and be asked past its end.
#[derive(Clone, Copy, Debug, Default, PartialEq, Eq)]
pub struct Row {
    pub tag: u16,
    /// The label of an action, the name of a scope, 0 of any other.
    pub byte: u16,
    /// How many operands it has.
    pub members: u16,
    /// The number of the node after its subtree.
    pub after: u16,
    /// The number of its first action.
    pub first: u16,
    /// The offset of the field in the plan.
    pub at: u16,
}

impl Row {
    /// What the row's field is, if it is one.
    pub fn tag(self) -> Result<Tag, Fault>
        ensures { result ≡ spelt self.tag }
    {
        Tag::try_from(self.tag)
    }
}

/// Row k; past the end one of zeros.
pub fn row_at(rows: &[Row], k: usize) -> Row
    ensures { result ≡ row_of (table_numbers rows.now) k }
{
    if k < rows.len() {
        rows[k]
    } else {
        Row::default()
    }
}

/// The number of the node after the subtree of node k.
pub fn after(rows: &[Row], k: usize) -> usize
    ensures number { result ≡ after_at (table_numbers rows.now) k }
    ensures fits { result ≤ 65535 }
{
    usize::from(row_at(rows, k).after)
}

/// The number of the first action of node k.
pub fn first(rows: &[Row], k: usize) -> usize
    ensures number { result ≡ first_at (table_numbers rows.now) k }
    ensures fits { result ≤ 65535 }
{
    usize::from(row_at(rows, k).first)
}
