// 01, "Refusal numbers": everything that 1 to 13 ask is known before the first arc is made, and with it where each arc will stand. So
// compile tests 14 on the lent tables, and replay makes as much room as its net takes.
#![tactic(auto)]

pub mod front;

ghost use Rattle.std.specs.Prelude.{◌≡◌, ◌+◌, ◌*◌, ◌≤◌, length};
ghost use Rattle.field.specs.Limits.{plan_limit};
ghost use Rattle.field.specs.Answer.{good};
ghost use Rattle.field.specs.Says.{says};
ghost use Rattle.algebra.specs.Expr.{Expr};
ghost use Rattle.boxes.specs.Compile.{accept};
ghost use Rattle.boxes.specs.inner.Counted.{counts_numbers};
ghost use Rattle.lists.specs.inner.Numbers.{node_table};
ghost use Rattle.spread.specs.inner.Numbers.{told_table};
ghost use Rattle.transitions.specs.inner.Numbers.{most, list_numbers};
ghost use Rattle.judging.specs.inner.Judging.{counts_told, net_counts, counted, Drawn};

use crate::front::front;
use boxes::counts::{Counts, counts_at};
use field::{Fault, Refusal};
use lists::Node;
use plan::table::Row;
use spread::Told;
use spread::walk::spread;
use std::fmt;
use tables::rows::count_arcs;
use transitions::Transition;

/// Plans of at most so many bytes get work room of their size, so that a small plan does not pay for the limits.
pub const SMALL_PLAN: usize = 512;

/// A node takes 3 bytes at least.
pub const SMALL_NODES: usize = SMALL_PLAN / 3 + 1;

/// The counts of a net: 01, "Net tables", "The compiler's answer counts places, transitions and arcs".
#[derive(Clone, Copy, Debug, PartialEq, Eq)]
pub struct NetCounts {
    pub places: usize,
    pub transitions: usize,
    pub arcs: usize,
    pub entries: usize,
    pub internals: usize,
}

impl fmt::Display for NetCounts {
    /// 01, "Known nets": "First line: entries, internals, exits, transitions, arcs".
    fn fmt<W: fmt::Write>(&self, f: &mut fmt::Formatter<W>) -> fmt::Result {
        let exits = self
            .places
            .saturating_sub(self.entries)
            .saturating_sub(self.internals);
        write!(
            f,
            "net {} {} {exits} {} {}",
            self.entries, self.internals, self.transitions, self.arcs
        )
    }
}

// The counts of node 0, which is the whole plan, with those of the transitions and arcs.
fn told(counts: &[Counts], transitions: usize, arcs: usize) -> NetCounts
    ensures { counts_told result ≡ counted (counts_numbers counts.now) transitions arcs }
{
    let whole = counts_at(counts, 0);
    let entries = usize::from(whole.entries);
    let internals = usize::from(whole.internals);
    NetCounts {
        places: entries + (internals + usize::from(whole.exits)),
        transitions,
        arcs,
        entries,
        internals,
    }
}

/// From plan bytes to the counts of the net. Where it is fine the lists tell where each action's places stand, the index of each action's
/// node, and the list has the transitions. A field takes 3 bytes at least, so a row for each three bytes is room enough in the first three.
/// The five tables are five parameters, since each is as long as the caller has room: a struct of arrays would be of one length.
pub fn judge(
    plan: &[u8],
    table: &mut [Row],
    counts: &mut [Counts],
    lists: &mut [Node<u16>],
    index: &mut [Told],
    list: &mut [Transition],
) -> Result<NetCounts, Refusal>
    requires plan_in_bounds { length plan.now ≤ plan_limit → (length plan.now ≤ 3 * length table.old + 2) × (length plan.now ≤ 3 * length counts.old + 2) × (length plan.now ≤ 3 * length lists.old + 2) }
    requires in_bounds { (256 ≤ length index.old) × (most ≤ length list.old) }
    ensures says { says counts_told result ≡ net_counts plan.now }
    ensures drawn { (E : Expr) → accept plan.now ≡ good E → Drawn result (node_table lists.new) (told_table index.new) (list_numbers list.new) E }
{
    let ready = front(plan, table, counts, list)?;
    spread(&table[..ready.nodes], counts, lists, index);
    let arcs = count_arcs(index, &list[..ready.transitions]);
    if field::ARC_LIMIT < arcs {
        return Err(Fault::TooManyArcs.at(0));
    }
    Ok(told(counts, ready.transitions, arcs))
}
