// One line for a case: a title and what the call answers.
use enabling::Enabling;
use net::Lent;
use std::fmt::Display;

const ROWS_ROOM: usize = 6 * field::TRANSITION_LIMIT;

// A write that fails is passed over.
fn say<T: Display + Drop, E: Display + Drop>(rt: &impl Print, title: &str, answer: Result<T, E>) {
    let _ = match answer {
        Ok(value) => println!(rt; "{title}: {value}"),
        Err(refusal) => println!(rt; "{title}: {refusal}"),
    };
}

fn say_enabled(rt: &impl Print, title: &str, lent: &Lent, marking: &[u8], list: &mut [u16]) {
    let _ = match enabling::enabled(lent, marking, list) {
        Ok(Enabling::Many(many)) => println!(rt; "{title}: enabled {many}"),
        Ok(Enabling::Stuck) => println!(rt; "{title}: stuck"),
        Err(refusal) => println!(rt; "{title}: {refusal}"),
    };
}

/// Compiles a plan into tables that any net fits in.
pub fn compiled(rt: &impl Print, title: &str, plan: &[u8]) {
    let mut kinds = [0; field::PLACE_LIMIT];
    let mut rows = [0; ROWS_ROOM];
    let mut arcs = [0; field::ARC_LIMIT];
    compiled_into(rt, title, plan, &mut kinds, &mut rows, &mut arcs);
}

/// Compiles a plan into the lent tables.
pub fn compiled_into(
    rt: &impl Print,
    title: &str,
    plan: &[u8],
    kinds: &mut [u8],
    rows: &mut [u16],
    arcs: &mut [u16],
) {
    say(rt, title, compile::compile(plan, kinds, rows, arcs));
}

/// Replays a record with a marking buffer that any net fits in.
pub fn replayed(rt: &impl Print, title: &str, plan: &[u8], record: &[u8]) {
    replayed_in(rt, title, plan, record, &mut [0; field::PLACE_LIMIT]);
}

pub fn replayed_in(rt: &impl Print, title: &str, plan: &[u8], record: &[u8], marking: &mut [u8]) {
    say(rt, title, replay::replay(plan, record, marking));
}

// The net of `(a‖b);c`, lent with these kinds.
const ROWS: [u16; 18] = [
    1, 0, 65535, 0, 1, 1, 2, 1, 65535, 2, 1, 1, 3, 2, 65535, 4, 2, 1,
];

const ARCS: [u16; 7] = [0, 2, 1, 3, 2, 3, 4];

fn lent_with(kinds: &[u8]) -> Lent {
    Lent {
        kinds,
        rows: &ROWS,
        arcs: &ARCS,
        places: 5,
        transitions: 3,
        arc_count: 7,
    }
}

/// Fires a step on that net at a marking.
pub fn fired(rt: &impl Print, title: &str, kinds: &[u8], marking: &mut [u8], step: &[u8]) {
    say(
        rt,
        title,
        step::fire(&lent_with(kinds), marking, step).map(|_| "fired"),
    );
}

/// Lists what is enabled on that net at a marking.
pub fn listed(rt: &impl Print, title: &str, marking: &[u8], list: &mut [u16]) {
    say_enabled(rt, title, &lent_with(&[1, 1, 2, 2, 3]), marking, list);
}

/// Compiles a plan into tables that any net fits in, and lists what is enabled on its net at a marking.
pub fn listed_on(rt: &impl Print, title: &str, plan: &[u8], marking: &[u8], list: &mut [u16]) {
    let mut kinds = [0; field::PLACE_LIMIT];
    let mut rows = [0; ROWS_ROOM];
    let mut arcs = [0; field::ARC_LIMIT];
    match compile::compile(plan, &mut kinds, &mut rows, &mut arcs) {
        Ok(net) => {
            let lent = Lent {
                kinds: &kinds,
                rows: &rows,
                arcs: &arcs,
                places: net.places,
                transitions: net.transitions,
                arc_count: net.arcs,
            };
            say_enabled(rt, title, &lent, marking, list);
        }
        Err(refusal) => {
            let _ = println!(rt; "{title}: {refusal}");
        }
    }
}
