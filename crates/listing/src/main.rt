// 01, "Known nets": writes the net of the plan on standard input, or why the plan is refused.
#![tactic(auto)]

mod lines;

// As many bytes as a plan may have, and one more: enough to see that it is too long.
const PLAN_ROOM: usize = field::PLAN_LIMIT + 1;

const ROWS_ROOM: usize = 6 * field::TRANSITION_LIMIT;

// A write that fails is passed over.
fn list(rt: &impl Print, plan: &[u8]) {
    let mut kinds = [0; field::PLACE_LIMIT];
    let mut rows = [0; ROWS_ROOM];
    let mut arcs = [0; field::ARC_LIMIT];
    match compile::compile(plan, &mut kinds, &mut rows, &mut arcs) {
        Ok(net) => {
            let _ = println!(rt; "{net}");
            lines::write_transitions(rt, &rows, net.transitions, &arcs);
        }
        Err(refusal) => {
            let _ = println!(rt; "{refusal}");
        }
    }
}

fn main(rt: HostRuntime) {
    let mut plan = [0; PLAN_ROOM];
    match console::read_all(&mut rt.stdin(), &mut plan) {
        Ok(n) => list(&rt, &plan[..n]),
        Err(e) => {
            let _ = eprintln!(rt; "plan: {e}");
        }
    }
}
