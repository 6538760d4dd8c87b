// The three tables of a net as they are lent, with their counts, and a row of them.
ghost use Rattle.std.specs.Prelude.{◌≡◌, ◌+◌, ◌*◌, ◌<◌, ◌≤◌, length};
ghost use Rattle.net.specs.inner.Chains.{in_row};

/// Three lent tables with their three counts: 01, "Net tables". They may be no net. C lends them too, so they are plain numbers.
#[derive(Clone, Copy)]
pub struct Lent<'a> {
    pub kinds: &'a [u8],
    pub rows: &'a [u16],
    pub arcs: &'a [u16],
    pub places: usize,
    pub transitions: usize,
    pub arc_count: usize,
}

impl<'a> Lent<'a> {
    ghost use Rattle.net.specs.Check.{counts_fit, tables_reach};
    ghost use Rattle.net.specs.Lent.{tables_lent};

    #[tactic(auto, unfolding(crate::specs::Check::counts_fit))]
    /// No count is over its limit. Only behind this test may counts be multiplied: a lent count can be any number.
    pub(crate) fn counts_fit(&self) -> bool
        ensures { result ≡ counts_fit (tables_lent self.now) }
    {
        self.places <= field::PLACE_LIMIT
            && self.transitions <= field::TRANSITION_LIMIT
            && self.arc_count <= field::ARC_LIMIT
    }

    #[tactic(auto, unfolding(crate::specs::Check::tables_reach))]
    /// Each table holds as much as its count says.
    pub fn tables_reach(&self) -> bool
        requires { self.now.transitions ≤ 1024 }
        ensures { result ≡ tables_reach (tables_lent self.now) }
    {
        self.places <= self.kinds.len()
            && ROW * self.transitions <= self.rows.len()
            && self.arc_count <= self.arcs.len()
    }
}

// How many numbers a row has.
const ROW: usize = 6;

/// 01, "Net tables": "six 16-bit numbers per transition".
#[derive(Clone, Copy, Debug, PartialEq, Eq)]
pub struct Row {
    pub label: u16,
    /// The first action.
    pub first: u16,
    /// "second action or 65,535".
    pub second: u16,
    /// The start in the arcs.
    pub start: u16,
    /// How many inputs.
    pub inputs: u16,
    /// How many outputs.
    pub outputs: u16,
}

impl Row {
    ghost use Rattle.net.specs.Rows.{row_of};

    /// The row of transition t.
    pub fn at(rows: &[u16], t: usize) -> Self
        requires { 6 * t + 6 ≤ length rows.now }
        ensures { result ≡ row_of rows.now t }
    {
        let front = ROW * t;
        Row {
            label: rows[front],
            first: rows[front + 1],
            second: rows[front + 2],
            start: rows[front + 3],
            inputs: rows[front + 4],
            outputs: rows[front + 5],
        }
    }
}

/// The rows of so many transitions, all of them there.
#[derive(Clone, Copy)]
pub(crate) struct Rows<'a> {
    pub numbers: &'a [u16],
    pub transitions: usize,
    ghost few: { transitions ≤ 1024 },
    ghost reach: { 6 * transitions ≤ length numbers.now },
}

impl<'a> Rows<'a> {
    ghost use Rattle.net.specs.Rows.{row_of};

    /// The row of transition t.
    pub fn row(&self, t: usize) -> Row
        requires { t < self.now.transitions }
        ensures { result ≡ row_of self.now.numbers.now t }
    {
        Row::at(self.numbers, t)
    }
}
