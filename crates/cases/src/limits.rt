// 01, "Known nets", "Run": nets, plans and a record at the limits and one step beyond; and two plans whose inner parts pass the limits
// of transitions and of arcs, which are asked of the whole net alone.
ghost use Rattle.std.specs.Prelude.{◌≤◌};

use crate::plans::Plan;
use crate::records;
use crate::show::{compiled, compiled_into, listed_on, replayed};
use plan::table::Tag;

// "two 32-wide parallels in choice have 2,048 places, 64 transitions, 4,096 arcs, accepted; 33 beside 32 is 11."
fn beside(rt: &impl Print, title: &str, m: usize, n: usize)
    requires { (1 ≤ m) × (m ≤ 100) × (1 ≤ n) × (n ≤ 100) }
{
    let mut plan = Plan::new();
    plan.operator(Tag::Choice, m + n, 0);
    plan.wide(Tag::Parallel, 1, m);
    plan.wide(Tag::Parallel, 2, n);
    compiled(rt, title, plan.bytes());
}

// "32 a's beside 32 a''s, scoped, give 1,024 transitions; 33 and 33 give 12"
fn joined(rt: &impl Print, title: &str, m: usize, n: usize)
    requires { (1 ≤ m) × (m ≤ 100) × (1 ≤ n) × (n ≤ 100) }
{
    let mut plan = Plan::new();
    plan.pairs(m, n);
    compiled(rt, title, plan.bytes());
}

// The same 1,024 pass check 30, and with all 64 entries and 64 exits marked each of them is enabled.
fn joined_listed(rt: &impl Print, title: &str) {
    let mut plan = Plan::new();
    plan.pairs(32, 32);
    listed_on(rt, title, plan.bytes(), &[1; 128], &mut [0; 1024]);
}

// "16 and 16, scoped, in choice with a 32-wide parallel give 13."
fn joined_in_choice(rt: &impl Print, title: &str) {
    let mut plan = Plan::new();
    plan.operator(Tag::Choice, 64, 1);
    plan.pairs(16, 16);
    plan.wide(Tag::Parallel, 2, 32);
    compiled(rt, title, plan.bytes());
}

fn nested(rt: &impl Print, title: &str, n: usize)
    requires { n ≤ 1000 }
{
    let mut plan = Plan::new();
    plan.scopes(n);
    compiled(rt, title, plan.bytes());
}

fn in_a_row(rt: &impl Print, title: &str, n: usize)
    requires { n ≤ 1000 }
{
    let mut plan = Plan::new();
    plan.wide(Tag::Sequence, 1, n);
    compiled(rt, title, plan.bytes());
}

// `((32 a ‖ 32 a') sc a) ‖ 100 b` has 1,124 transitions; the scope of b takes 100 of them away.
fn many_transitions(plan: &mut Plan) {
    plan.operator(Tag::Parallel, 164, 1);
    plan.pairs(32, 32);
    plan.wide(Tag::Parallel, 2, 100);
}

fn too_many_transitions(rt: &impl Print, title: &str) {
    let mut plan = Plan::new();
    many_transitions(&mut plan);
    compiled(rt, title, plan.bytes());
}

fn few_after_all(rt: &impl Print, title: &str) {
    let mut plan = Plan::new();
    plan.scope(2, 164, 1);
    many_transitions(&mut plan);
    compiled(rt, title, plan.bytes());
}

// `(a □ .. 100 .. □ a) □ (b ‖ .. 100 .. ‖ b)` has 20,200 arcs; the scope of a takes 20,000 of them away.
fn many_arcs(plan: &mut Plan) {
    plan.operator(Tag::Choice, 200, 0);
    plan.wide(Tag::Choice, 1, 100);
    plan.wide(Tag::Parallel, 2, 100);
}

fn too_many_arcs(rt: &impl Print, title: &str) {
    let mut plan = Plan::new();
    many_arcs(&mut plan);
    compiled(rt, title, plan.bytes());
}

fn few_arcs_after_all(rt: &impl Print, title: &str) {
    let mut plan = Plan::new();
    plan.scope(1, 200, 0);
    many_arcs(&mut plan);
    compiled(rt, title, plan.bytes());
}

// `(a□..m..□a)□((b‖..n..‖b);(c‖..k..‖c))`: an a takes from n places and puts into k, a b from 1 into k, a c from n into 1.
fn arcs_by_count(plan: &mut Plan, m: usize, n: usize, k: usize)
    requires { (1 ≤ m) × (m ≤ 200) × (1 ≤ n) × (n ≤ 200) × (1 ≤ k) × (k ≤ 200) }
{
    plan.operator(Tag::Choice, m + n + k, 0);
    plan.wide(Tag::Choice, 1, m);
    plan.operator(Tag::Sequence, n + k, 0);
    plan.wide(Tag::Parallel, 2, n);
    plan.wide(Tag::Parallel, 3, k);
}

// 112·(120 + 8) + 120·(1 + 8) + 8·(120 + 1) = 16,384 arcs; 120 entries, 120·8 = 960 internals, 8 exits; 112 + 120 + 8 = 240 transitions.
fn all_arcs(rt: &impl Print, title: &str) {
    let mut plan = Plan::new();
    arcs_by_count(&mut plan, 112, 120, 8);
    compiled(rt, title, plan.bytes());
}

// 134·(97 + 10) + 97·(1 + 10) + 10·(97 + 1) = 16,385 arcs; 97 + 97·10 + 10 = 1,077 places; 134 + 97 + 10 = 241 transitions, 6·241 = 1,446.
fn an_arc_too_many(rt: &impl Print) {
    let mut plan = Plan::new();
    arcs_by_count(&mut plan, 134, 97, 10);
    compiled_into(
        rt,
        "16,385 arcs, room for all",
        plan.bytes(),
        &mut [0; 1077],
        &mut [0; 1446],
        &mut [0; 16385],
    );
    compiled_into(
        rt,
        "16,385 arcs, room for none",
        plan.bytes(),
        &mut [0; 0],
        &mut [0; 0],
        &mut [0; 0],
    );
}

// `(⟨a⊗a⊗a⟩‖⟨a'⊗a'⊗a'⟩) sc a`: (0,3) 0 1→2 3, (1,4) 2 3→2 3, (2,5) 2 3→4 5, where 4 and 5 are the exits. {(0,3)}, 2,046 times {(1,4)},
// {(2,5)} are 2,048 steps of 8 bytes: 16,384.
fn full_record(rt: &impl Print, title: &str) {
    let mut record = [0; field::RECORD_LIMIT];
    records::fill(&mut record);
    replayed(
        rt,
        title,
        b"\x06\x00\x22\x01\x04\x00\x1e\x05\x00\x0c\x01\x00\x01\x01\x01\x00\x01\x01\x01\x00\x01\x01\x05\x00\x0c\x01\x00\x01\x81\x01\x00\x01\x81\x01\x00\x01\x81",
        &record,
    );
}

pub fn run(rt: &impl Print) {
    beside(rt, "32 beside 32", 32, 32);
    beside(rt, "33 beside 32", 33, 32);
    joined(rt, "32 joined with 32", 32, 32);
    joined_listed(rt, "32 joined with 32, all marked");
    joined(rt, "33 joined with 33", 33, 33);
    joined_in_choice(rt, "16 joined with 16, in choice with 32");
    nested(rt, "depth 32", 31);
    nested(rt, "depth 33", 32);
    in_a_row(rt, "256 actions", 256);
    in_a_row(rt, "257 actions", 257);
    too_many_transitions(rt, "1,124 transitions");
    few_after_all(rt, "1,124 transitions, 100 under a scope");
    too_many_arcs(rt, "20,200 arcs");
    few_arcs_after_all(rt, "20,200 arcs, 20,000 under a scope");
    all_arcs(rt, "16,384 arcs");
    an_arc_too_many(rt);
    full_record(rt, "record of 16,384 bytes");
}
