// 01, "Refusal numbers": a case for each, from bytes.
use crate::show::{compiled, compiled_into, fired, listed, replayed, replayed_in};

fn too_long(rt: &impl Print) {
    let plan = [9u8; 4097];
    compiled(rt, "1", &plan);
    let longer = [9u8; 5000];
    compiled(rt, "1, 5,000 bytes", &longer);
    let record = [0u8; 16385];
    replayed(rt, "20", b"\x01\x00\x01\x01", &record);
    let longer = [0u8; 20000];
    replayed(rt, "20, 20,000 bytes", b"\x01\x00\x01\x01", &longer);
}

fn headers(rt: &impl Print) {
    compiled(rt, "8, operand due", b"\x04\x00\x04\x01\x00\x01\x01");
    compiled(rt, "2, header cut", b"\x01\x00");
    compiled(
        rt,
        "2, length",
        b"\x04\x00\x08\x01\x00\x01\x01\x01\x00\x02\x01\x01",
    );
    compiled(rt, "3", b"\x07\x00\x09");
}

fn bodies(rt: &impl Print) {
    compiled(rt, "4, action", b"\x01\x00\x02\x01\x01");
    compiled(rt, "4, scope", b"\x06\x00\x00");
    compiled(rt, "6, label", b"\x01\x00\x01\x80");
    compiled(rt, "6, scope byte", b"\x06\x00\x05\x80\x01\x00\x01\x01");
    compiled(
        rt,
        "9, after the last operand",
        b"\x06\x00\x06\x01\x01\x00\x01\x01\x09",
    );
    compiled(rt, "9, after the plan", b"\x01\x00\x01\x01\x09");
}

// `a;⟨c⊗(a‖b)⊗d⟩`
fn loops(rt: &impl Print) {
    compiled(
        rt,
        "10",
        b"\x02\x00\x1a\x01\x00\x01\x01\x05\x00\x13\x01\x00\x01\x03\x04\x00\x08\x01\x00\x01\x01\x01\x00\x01\x02\x01\x00\x01\x04",
    );
}

// `(a‖b);c` into tables that it fits in, and into tables one number short.
fn tables(rt: &impl Print) {
    let plan = b"\x02\x00\x0f\x04\x00\x08\x01\x00\x01\x01\x01\x00\x01\x02\x01\x00\x01\x03";
    compiled_into(rt, "room", plan, &mut [0; 5], &mut [0; 18], &mut [0; 7]);
    compiled_into(
        rt,
        "14, kinds",
        plan,
        &mut [0; 4],
        &mut [0; 18],
        &mut [0; 7],
    );
    compiled_into(rt, "14, rows", plan, &mut [0; 5], &mut [0; 17], &mut [0; 7]);
    compiled_into(rt, "14, arcs", plan, &mut [0; 5], &mut [0; 18], &mut [0; 6]);
}

// Records of `(a‖b);c`.
fn accepted(rt: &impl Print) {
    let plan = b"\x02\x00\x0f\x04\x00\x08\x01\x00\x01\x01\x01\x00\x01\x02\x01\x00\x01\x03";
    replayed(rt, "no step", plan, &[]);
    replayed(rt, "one step", plan, b"\x20\x00\x04\x21\x00\x01\x00");
    replayed(
        rt,
        "all steps",
        plan,
        b"\x20\x00\x08\x21\x00\x01\x00\x21\x00\x01\x01\x20\x00\x04\x21\x00\x01\x02",
    );
}

// The same, behind the step {a}.
fn forms(rt: &impl Print) {
    let plan = b"\x02\x00\x0f\x04\x00\x08\x01\x00\x01\x01\x01\x00\x01\x02\x01\x00\x01\x03";
    replayed(
        rt,
        "21",
        plan,
        b"\x20\x00\x04\x21\x00\x01\x00\x20\x00\x05\x21\x00\x01\x01",
    );
    replayed(
        rt,
        "22, step",
        plan,
        b"\x20\x00\x04\x21\x00\x01\x00\x23\x00\x00",
    );
    replayed(
        rt,
        "22, item",
        plan,
        b"\x20\x00\x04\x21\x00\x01\x00\x20\x00\x04\x23\x00\x01\x01",
    );
    replayed(
        rt,
        "23, empty step",
        plan,
        b"\x20\x00\x04\x21\x00\x01\x00\x20\x00\x00",
    );
    replayed(
        rt,
        "23, item",
        plan,
        b"\x20\x00\x04\x21\x00\x01\x00\x20\x00\x04\x22\x00\x01\x01",
    );
    replayed(
        rt,
        "24",
        plan,
        b"\x20\x00\x04\x21\x00\x01\x00\x20\x00\x08\x21\x00\x01\x01\x21\x00\x01\x01",
    );
}

fn steps(rt: &impl Print) {
    let plan = b"\x02\x00\x0f\x04\x00\x08\x01\x00\x01\x01\x01\x00\x01\x02\x01\x00\x01\x03";
    replayed(
        rt,
        "31",
        plan,
        b"\x20\x00\x04\x21\x00\x01\x00\x20\x00\x08\x21\x00\x01\x01\x21\x00\x01\x09",
    );
    replayed(
        rt,
        "32",
        plan,
        b"\x20\x00\x04\x21\x00\x01\x00\x20\x00\x04\x21\x00\x01\x02",
    );
    replayed_in(rt, "35, replay", plan, &[], &mut [0; 4]);
    // `(a‖b)□c`, step {b, c}
    let choice = b"\x03\x00\x0f\x04\x00\x08\x01\x00\x01\x01\x01\x00\x01\x02\x01\x00\x01\x03";
    replayed(
        rt,
        "33",
        choice,
        b"\x20\x00\x08\x21\x00\x01\x01\x21\x00\x01\x02",
    );
}

// The step {a, b} on the net of `(a‖b);c`.
fn firing(rt: &impl Print) {
    let both = b"\x20\x00\x08\x21\x00\x01\x00\x21\x00\x01\x01";
    fired(rt, "fire", &[1, 1, 2, 2, 3], &mut [1, 1, 0, 0, 0], both);
    fired(rt, "30", &[1, 1, 2, 3, 2], &mut [1, 1, 0, 0, 0], both);
    fired(
        rt,
        "35, marking short",
        &[1, 1, 2, 2, 3],
        &mut [1, 1, 0, 0],
        both,
    );
    fired(
        rt,
        "35, byte above 1",
        &[1, 1, 2, 2, 3],
        &mut [1, 1, 0, 0, 2],
        both,
    );
    fired(rt, "36", &[1, 1, 2, 2, 3], &mut [1, 1, 1, 0, 0], both);
}

fn listing(rt: &impl Print) {
    listed(rt, "list", &[1, 1, 0, 0, 0], &mut [0; 3]);
    listed(rt, "list of none", &[0, 0, 0, 0, 1], &mut [0; 0]);
    listed(rt, "14, list", &[1, 1, 0, 0, 0], &mut [0; 1]);
}

pub fn run(rt: &impl Print) {
    too_long(rt);
    headers(rt);
    bodies(rt);
    loops(rt);
    tables(rt);
    accepted(rt);
    forms(rt);
    steps(rt);
    firing(rt);
    listing(rt);
}
