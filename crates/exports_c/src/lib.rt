// The library's calls as C and Rust link them: each is the call of its name in exports, with the same promise.
#![tactic(auto)]

ghost use Rattle.std.specs.Prelude.{◌≡◌, cond, ◌≤◌, length, leb};
ghost use Rattle.net.specs.Lent.{lent};
ghost use Rattle.boxes.specs.Compile;
ghost use Rattle.step.specs.Fire;
ghost use Rattle.enabling.specs.Enabled;
ghost use Rattle.compile.specs.Says.{three_lent as lent_tables};
ghost use Rattle.replay.specs.Replay;
ghost use Rattle.exports.specs.Told.{told, compile_tells, fire_tells, enabled_tells, replay_tells};

// Compiles a plan into the lent tables. Seven numbers: refusal, carried, places, transitions, arcs, entries, internals.
#[unsafe(no_mangle)]
pub extern "C" fn fuuqidhel_compile(
    plan: &[u8],
    kinds: &mut [u8],
    rows: &mut [u16],
    arcs: &mut [u16],
    answer: &mut [usize],
) -> bool
    ensures room { result ≡ leb 7 (length answer.old) }
    ensures answer { answer.new ≡ cond result (told (compile_tells (Compile.compile plan.now (lent_tables kinds.old rows.old arcs.old)).answer) answer.old) answer.old }
    ensures kinds { kinds.new ≡ cond result (Compile.compile plan.now (lent_tables kinds.old rows.old arcs.old)).tables.kinds kinds.old }
    ensures rows { rows.new ≡ cond result (Compile.compile plan.now (lent_tables kinds.old rows.old arcs.old)).tables.rows rows.old }
    ensures arcs { arcs.new ≡ cond result (Compile.compile plan.now (lent_tables kinds.old rows.old arcs.old)).tables.arcs arcs.old }
{
    exports::fuuqidhel_compile(plan, kinds, rows, arcs, answer)
}

// Fires one step field at a marking. Two numbers: refusal, carried.
#[unsafe(no_mangle)]
pub extern "C" fn fuuqidhel_fire(
    kinds: &[u8],
    rows: &[u16],
    arcs: &[u16],
    places: usize,
    transitions: usize,
    arc_count: usize,
    marking: &mut [u8],
    step: &[u8],
    answer: &mut [usize],
) -> bool
    ensures room { result ≡ leb 2 (length answer.old) }
    ensures answer { answer.new ≡ cond result (told (fire_tells (Fire.fire (lent kinds.now rows.now arcs.now places transitions arc_count) marking.old step.now).answer) answer.old) answer.old }
    ensures marking { marking.new ≡ cond result (Fire.fire (lent kinds.now rows.now arcs.now places transitions arc_count) marking.old step.now).marking marking.old }
{
    exports::fuuqidhel_fire(
        kinds,
        rows,
        arcs,
        places,
        transitions,
        arc_count,
        marking,
        step,
        answer,
    )
}

// Lists the enabled transitions. Four numbers: refusal, carried, how many, and 1 where the net is stuck.
#[unsafe(no_mangle)]
pub extern "C" fn fuuqidhel_enabled(
    kinds: &[u8],
    rows: &[u16],
    arcs: &[u16],
    places: usize,
    transitions: usize,
    arc_count: usize,
    marking: &[u8],
    list: &mut [u16],
    answer: &mut [usize],
) -> bool
    ensures room { result ≡ leb 4 (length answer.old) }
    ensures answer { answer.new ≡ cond result (told (enabled_tells (Enabled.enabled (lent kinds.now rows.now arcs.now places transitions arc_count) marking.now list.old).answer) answer.old) answer.old }
    ensures list { list.new ≡ cond result (Enabled.enabled (lent kinds.now rows.now arcs.now places transitions arc_count) marking.now list.old).list list.old }
{
    exports::fuuqidhel_enabled(
        kinds,
        rows,
        arcs,
        places,
        transitions,
        arc_count,
        marking,
        list,
        answer,
    )
}

// Replays a record against a plan. Four numbers: refusal, carried, accepted steps, 1 where finished.
#[unsafe(no_mangle)]
pub extern "C" fn fuuqidhel_replay(
    plan: &[u8],
    record: &[u8],
    marking: &mut [u8],
    answer: &mut [usize],
) -> bool
    ensures room { result ≡ leb 4 (length answer.old) }
    ensures answer { answer.new ≡ cond result (told (replay_tells (Replay.replay plan.now «record».now marking.old).verdict) answer.old) answer.old }
    ensures marking { marking.new ≡ cond result (Replay.replay plan.now «record».now marking.old).buffer marking.old }
{
    exports::fuuqidhel_replay(plan, record, marking, answer)
}
