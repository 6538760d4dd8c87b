// The library's calls for C and Rust. Each tells its answer as numbers at the front of a lent array: 01's number of a refusal and what it
// carries, both 0 where there is none, and then what the call answers. A call whose array is too short answers false and touches nothing.
#![tactic(auto)]

ghost use Rattle.std.specs.Prelude.{◌≡◌, cond, ◌≤◌, length, leb};
ghost use Rattle.net.specs.Lent.{lent};
ghost use Rattle.boxes.specs.Compile;
ghost use Rattle.step.specs.Fire;
ghost use Rattle.enabling.specs.Enabled;
ghost use Rattle.compile.specs.Says.{three_lent as lent_tables};
ghost use Rattle.replay.specs.Replay;
ghost use Rattle.exports.specs.Told.{told, compile_tells, fire_tells, enabled_tells, replay_tells};

use enabling::Enabling;
use net::Lent;
use run::Ran;

// The numbers of an answer, for which there is room.
fn tell(answer: &mut [usize], numbers: &[usize])
    requires { length numbers.now ≤ length answer.old }
    ensures { answer.new ≡ told numbers.now answer.old }
{
    answer[..numbers.len()].copy_from_slice(numbers);
}

// Compiles a plan into the lent tables. Seven numbers: refusal, carried, places, transitions, arcs, entries, internals.
pub fn fuuqidhel_compile(
    plan: &[u8],
    kinds: &mut [u8],
    rows: &mut [u16],
    arcs: &mut [u16],
    answer: &mut [usize],
) -> bool
    ensures room { result ≡ leb 7 (length answer.old) }
    ensures answer { answer.new ≡ cond result (told (compile_tells (Compile.compile plan.now (lent_tables kinds.old rows.old arcs.old)).answer) answer.old) answer.old }
    ensures kinds { kinds.new ≡ cond result (Compile.compile plan.now (lent_tables kinds.old rows.old arcs.old)).tables.kinds kinds.old }
    ensures rows { rows.new ≡ cond result (Compile.compile plan.now (lent_tables kinds.old rows.old arcs.old)).tables.rows rows.old }
    ensures arcs { arcs.new ≡ cond result (Compile.compile plan.now (lent_tables kinds.old rows.old arcs.old)).tables.arcs arcs.old }
{
    if answer.len() < 7 {
        return false;
    }
    match compile::compile(plan, kinds, rows, arcs) {
        Ok(net) => tell(
            answer,
            &[
                0,
                0,
                net.places,
                net.transitions,
                net.arcs,
                net.entries,
                net.internals,
            ],
        ),
        Err(refusal) => tell(
            answer,
            &[refusal.fault.number(), refusal.carried, 0, 0, 0, 0, 0],
        ),
    }
    true
}

// Fires one step field at a marking. Two numbers: refusal, carried.
pub fn fuuqidhel_fire(
    kinds: &[u8],
    rows: &[u16],
    arcs: &[u16],
    places: usize,
    transitions: usize,
    arc_count: usize,
    marking: &mut [u8],
    step: &[u8],
    answer: &mut [usize],
) -> bool
    ensures room { result ≡ leb 2 (length answer.old) }
    ensures answer { answer.new ≡ cond result (told (fire_tells (Fire.fire (lent kinds.now rows.now arcs.now places transitions arc_count) marking.old step.now).answer) answer.old) answer.old }
    ensures marking { marking.new ≡ cond result (Fire.fire (lent kinds.now rows.now arcs.now places transitions arc_count) marking.old step.now).marking marking.old }
{
    if answer.len() < 2 {
        return false;
    }
    let lent = Lent {
        kinds,
        rows,
        arcs,
        places,
        transitions,
        arc_count,
    };
    match step::fire(&lent, marking, step) {
        Ok(()) => tell(answer, &[0, 0]),
        Err(refusal) => tell(answer, &[refusal.fault.number(), refusal.carried]),
    }
    true
}

// Lists the enabled transitions. Four numbers: refusal, carried, how many, and 1 where the net is stuck.
pub fn fuuqidhel_enabled(
    kinds: &[u8],
    rows: &[u16],
    arcs: &[u16],
    places: usize,
    transitions: usize,
    arc_count: usize,
    marking: &[u8],
    list: &mut [u16],
    answer: &mut [usize],
) -> bool
    ensures room { result ≡ leb 4 (length answer.old) }
    ensures answer { answer.new ≡ cond result (told (enabled_tells (Enabled.enabled (lent kinds.now rows.now arcs.now places transitions arc_count) marking.now list.old).answer) answer.old) answer.old }
    ensures list { list.new ≡ cond result (Enabled.enabled (lent kinds.now rows.now arcs.now places transitions arc_count) marking.now list.old).list list.old }
{
    if answer.len() < 4 {
        return false;
    }
    let lent = Lent {
        kinds,
        rows,
        arcs,
        places,
        transitions,
        arc_count,
    };
    match enabling::enabled(&lent, marking, list) {
        Ok(Enabling::Many(many)) => tell(answer, &[0, 0, many, 0]),
        Ok(Enabling::Stuck) => tell(answer, &[0, 0, 0, 1]),
        Err(refusal) => tell(answer, &[refusal.fault.number(), refusal.carried, 0, 0]),
    }
    true
}

// Replays a record against a plan. Four numbers: refusal, carried, accepted steps, 1 where finished.
pub fn fuuqidhel_replay(
    plan: &[u8],
    record: &[u8],
    marking: &mut [u8],
    answer: &mut [usize],
) -> bool
    ensures room { result ≡ leb 4 (length answer.old) }
    ensures answer { answer.new ≡ cond result (told (replay_tells (Replay.replay plan.now «record».now marking.old).verdict) answer.old) answer.old }
    ensures marking { marking.new ≡ cond result (Replay.replay plan.now «record».now marking.old).buffer marking.old }
{
    if answer.len() < 4 {
        return false;
    }
    match replay::replay(plan, record, marking) {
        Ok(Ran::Finished(steps)) => tell(answer, &[0, 0, steps, 1]),
        Ok(Ran::Unfinished(steps)) => tell(answer, &[0, 0, steps, 0]),
        Err(stopped) => tell(
            answer,
            &[
                stopped.refusal.fault.number(),
                stopped.refusal.carried,
                stopped.steps,
                0,
            ],
        ),
    }
    true
}
