// 01, "Net tables": the compile call, from the plan to the three lent tables. It judges first and then writes: each row and each arc once,
// where it belongs.
#![tactic(auto)]

ghost use Rattle.std.specs.Prelude.{◌≡◌, ◌*◌, ◌≤◌, length};
ghost use Rattle.boxes.specs.Compile as paper;
ghost use Rattle.field.specs.Limits.{plan_limit};
ghost use Rattle.compile.specs.Says.{compiling_says, three_lent};
ghost use Rattle.compile.specs.inner.Leaves.{Leaves};

use boxes::counts::Counts;
use field::{Fault, Refusal};
use judging::{NetCounts, SMALL_NODES, SMALL_PLAN, judge};
use lists::Node;
use net::Lent;
use plan::NODES;
use plan::table::Row;
use sides::Draft;
use spread::Told;
use tables::kinds::write_kinds;
use tables::rows::put_net;
use transitions::{MOST, Transition};

// The call, in work room for so many nodes.
fn compile_in<const N: usize>(
    plan: &[u8],
    kinds: &mut [u8],
    rows: &mut [u16],
    arcs: &mut [u16],
) -> Result<NetCounts, Refusal>
    requires few { N ≤ 1366 }
    requires room { length plan.now ≤ plan_limit → length plan.now ≤ 3 * N }
    ensures { Leaves plan.now (three_lent kinds.old rows.old arcs.old) (compiling_says result) kinds.new rows.new arcs.new }
{
    let mut table = [Row::default(); N];
    let mut counts = [Counts::default(); N];
    let mut lists = [Node::default(); N];
    let mut index = [Told::default(); field::ACTION_LIMIT];
    let mut list = [Transition::default(); MOST];
    let net = judge(
        plan,
        &mut table,
        &mut counts,
        &mut lists,
        &mut index,
        &mut list,
    )?;
    let lent = Lent {
        kinds: &*kinds,
        rows: &*rows,
        arcs: &*arcs,
        places: net.places,
        transitions: net.transitions,
        arc_count: net.arcs,
    };
    if !lent.tables_reach() {
        return Err(Fault::TableTooShort.at(0));
    }
    let exits = net.places - net.entries - net.internals;
    write_kinds(kinds, net.entries, net.internals, exits);
    let draft = Draft {
        lists: &lists,
        index: &index,
    };
    put_net(draft, &list[..net.transitions], rows, arcs, net.places);
    Ok(net)
}

/// The three tables of the plan's net. Nothing lent is written before all is known, and on refusal nothing is; what lies behind the net's part
/// is never touched.
pub fn compile(
    plan: &[u8],
    kinds: &mut [u8],
    rows: &mut [u16],
    arcs: &mut [u16],
) -> Result<NetCounts, Refusal>
    ensures answer { compiling_says result ≡ (paper.compile plan.now (three_lent kinds.old rows.old arcs.old)).answer }
    ensures kinds { kinds.new ≡ (paper.compile plan.now (three_lent kinds.old rows.old arcs.old)).tables.kinds }
    ensures rows { rows.new ≡ (paper.compile plan.now (three_lent kinds.old rows.old arcs.old)).tables.rows }
    ensures arcs { arcs.new ≡ (paper.compile plan.now (three_lent kinds.old rows.old arcs.old)).tables.arcs }
{
    if plan.len() <= SMALL_PLAN {
        compile_in::<SMALL_NODES>(plan, kinds, rows, arcs)
    } else {
        compile_in::<NODES>(plan, kinds, rows, arcs)
    }
}
