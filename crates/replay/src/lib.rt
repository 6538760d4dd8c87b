// 01: "Replay takes plan, record and marking buffer: 1 to 13, then 35 (short only), then 20, before anything is written and with 0 steps told."
#![tactic(auto)]

ghost use Rattle.std.specs.Prelude.{◌≡◌, List, ◌++◌, ℕ, ◌+◌, ◌*◌, ◌-◌, ◌≤◌, length, replicate};
ghost use Rattle.field.specs.Limits.{plan_limit};
ghost use Rattle.algebra.specs.Net as algebra;
ghost use Rattle.lists.specs.inner.Numbers.{node_table};
ghost use Rattle.spread.specs.inner.Numbers.{told_table};
ghost use Rattle.transitions.specs.inner.Numbers.{list_numbers};
ghost use Rattle.run.specs.Says.{ran_says};
ghost use Rattle.replay.specs.Replay;
ghost use Rattle.replay.specs.inner.Fine as fine;
ghost use Rattle.replay.specs.inner.OnANet.{Holds, RunIs, ReplayIs, Leaves};

use boxes::counts::Counts;
use field::Fault;
use judging::{NetCounts, SMALL_NODES, SMALL_PLAN, judge};
use lists::Node;
use moving::Net;
use net::tokens::has_room;
use plan::NODES;
use plan::table::Row;
use run::{Ran, Stopped, run_record};
use sides::Draft;
use spread::Told;
use tables::rows::put_net;
use transitions::{MOST, Transition};

// Nets of at most so many transitions and arcs get room of their size, so that a small net does not pay for the limits.
const FEW_TRANSITIONS: usize = 64;

const FEW_ROWS: usize = 6 * FEW_TRANSITIONS;

const FEW_ARCS: usize = 1024;

const ALL_ROWS: usize = 6 * field::TRANSITION_LIMIT;

const ALL_ARCS: usize = field::ARC_LIMIT;

// A refusal before the first step: "with 0 steps told".
fn at_once(fault: Fault) -> Stopped
    ensures { (result.refusal.fault ≡ fault) × (result.refusal.carried ≡ 0) × (result.steps ≡ 0) }
{
    Stopped {
        refusal: fault.at(0),
        steps: 0,
    }
}

// A token on each entry place, and none elsewhere.
fn mark_entries(marking: &mut [u8], entries: usize)
    requires { entries ≤ length marking.old }
    ensures { marking.new ≡ replicate entries 1 ++ replicate (length marking.old - entries) 0 }
{
    marking[..entries].fill(1);
    marking[entries..].fill(0);
}

// "Then the buffer gets the entry marking and each step in turn": the marking is the net's part of the buffer.
fn run_from_entries(
    net: Net,
    counts: NetCounts,
    record: &[u8],
    marking: &mut [u8],
) -> Result<Ran, Stopped>
    requires long { length marking.old ≡ net.places }
    requires internals_in_bounds { counts.entries + counts.internals ≤ length marking.old }
    ensures { (N : algebra.Net) → Holds net.entry.rows.now net.entry.arcs.now (length marking.old) net.entry.transitions counts.entries counts.internals N → RunIs N «record».now result marking.new }
{
    mark_entries(marking, counts.entries);
    let exits_from = counts.entries + counts.internals;
    run_record(
        net.rows,
        net.arcs,
        net.transitions,
        exits_from,
        record,
        marking,
    )
}

// "35 (short only), then 20, before anything is written", then the run. What lies behind the net's part is neither looked at nor written.
fn replay_net(
    net: Net,
    counts: NetCounts,
    record: &[u8],
    marking: &mut [u8],
) -> Result<Ran, Stopped>
    requires internals_bound { counts.entries + counts.internals ≤ net.places }
    ensures { (N : algebra.Net) → Holds net.entry.rows.now net.entry.arcs.now net.entry.places net.entry.transitions counts.entries counts.internals N → ReplayIs N «record».now marking.old result marking.new }
{
    if !has_room(marking, net.places) {
        return Err(at_once(Fault::NoMarking));
    }
    if field::RECORD_LIMIT < record.len() {
        return Err(at_once(Fault::RecordTooLong));
    }
    run_from_entries(net, counts, record, &mut marking[..net.places])
}

// The net's rows and arcs, put into room for so many, and then the run.
fn replay_put<const R: usize, const A: usize>(
    draft: Draft,
    list: &[Transition],
    counts: NetCounts,
    record: &[u8],
    marking: &mut [u8],
) -> Result<Ran, Stopped>
    requires few { (R ≤ 6144) × (A ≤ 16384) }
    requires known { fine.Known (node_table draft.lists.now) (told_table draft.index.now) (list_numbers list.now) counts }
    requires in_bounds { (6 * counts.transitions ≤ R) × (counts.arcs ≤ A) }
    ensures { (plan : List ℕ) → fine.Told plan (node_table draft.entry.lists.now) (told_table draft.entry.index.now) (list_numbers list.now) counts → Leaves plan «record».now marking.old result marking.new }
{
    let mut rows = [0; R];
    let mut arcs = [0; A];
    let transitions = &list[..counts.transitions];
    put_net(draft, transitions, &mut rows, &mut arcs, counts.places);
    let net = Net {
        rows: &rows,
        arcs: &arcs,
        places: counts.places,
        transitions: counts.transitions,
    };
    replay_net(net, counts, record, marking)
}

// The call, in work room for so many nodes. A refused plan is refused with 0 steps told; of one that is fine the net's counts are known, and
// with them how much room it takes.
fn replay_in<const N: usize>(plan: &[u8], record: &[u8], marking: &mut [u8]) -> Result<Ran, Stopped>
    requires few { N ≤ 1366 }
    requires room { length plan.now ≤ plan_limit → length plan.now ≤ 3 * N }
    ensures { Leaves plan.now «record».now marking.old result marking.new }
{
    let mut table = [Row::default(); N];
    let mut counts = [Counts::default(); N];
    let mut lists = [Node::default(); N];
    let mut index = [Told::default(); field::ACTION_LIMIT];
    let mut list = [Transition::default(); MOST];
    match judge(
        plan,
        &mut table,
        &mut counts,
        &mut lists,
        &mut index,
        &mut list,
    ) {
        Err(refusal) => Err(Stopped { refusal, steps: 0 }),
        Ok(net) => {
            let draft = Draft {
                lists: &lists,
                index: &index,
            };
            if net.transitions <= FEW_TRANSITIONS && net.arcs <= FEW_ARCS {
                replay_put::<FEW_ROWS, FEW_ARCS>(draft, &list, net, record, marking)
            } else {
                replay_put::<ALL_ROWS, ALL_ARCS>(draft, &list, net, record, marking)
            }
        }
    }
}

/// The whole call. The plan is judged and its net is made once, in the library's own work room, whose size goes by the plan's and the net's.
pub fn replay(plan: &[u8], record: &[u8], marking: &mut [u8]) -> Result<Ran, Stopped>
    ensures verdict { ran_says result ≡ (Replay.replay plan.now «record».now marking.old).verdict }
    ensures buffer { marking.new ≡ (Replay.replay plan.now «record».now marking.old).buffer }
{
    if plan.len() <= SMALL_PLAN {
        replay_in::<SMALL_NODES>(plan, record, marking)
    } else {
        replay_in::<NODES>(plan, record, marking)
    }
}
