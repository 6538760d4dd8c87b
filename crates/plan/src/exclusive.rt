// 01, "Box construction": "A loop body must be exclusive". Every node of the node table is judged, the node number falling, so that a
// node's operands, whose numbers are higher, are judged before it; the loop found last is the first of the plan.
ghost use Rattle.std.specs.Prelude.{◌≡◌, ◌+◌, ◌*◌, ◌<◌, ◌≤◌, length, get_or, eqb, false};
ghost use Rattle.algebra.specs.Expr.{Expr};
ghost use Rattle.field.specs.Says.{says};
ghost use Rattle.plan.specs.Loops.{check_loops};
ghost use Rattle.plan.specs.inner.Table.{Table};
ghost use Rattle.plan.specs.inner.Numbers.{table_numbers};
ghost use Rattle.plan.specs.inner.Judged.{bit, bits, exclusive_by, fault_by, fault_told};
ghost use Rattle.plan.specs.inner.Judging.{JudgesDown};

use crate::table::{Row, Tag, after};
use field::{Fault, Refusal};

// So many nodes are few.
const FEW_NODES: usize = 64;

/// Whether node k was judged exclusive; a number past the end is no node's.
fn is_judged_exclusive(exclusive: &[bool], k: usize) -> bool
    ensures { result ≡ get_or exclusive.now k false }
{
    k < exclusive.len() && exclusive[k]
}

/// "an action; any sequence; any loop; a choice of two exclusive ones; a scope of an exclusive one. A parallel is not."
fn is_exclusive(rows: &[Row], k: usize, exclusive: &[bool]) -> bool
    requires { (k < length rows.now) × (length rows.now ≤ 1366) }
    ensures { bit result ≡ exclusive_by (table_numbers rows.now) (bits exclusive.now) k }
{
    // A number that is no tag stands in no plan's row.
    let Ok(tag) = rows[k].tag() else {
        return true;
    };
    match tag {
        Tag::Action | Tag::Sequence | Tag::Loop => true,
        Tag::Choice => {
            is_judged_exclusive(exclusive, k + 1)
                && is_judged_exclusive(exclusive, after(rows, k + 1))
        }
        Tag::Parallel => false,
        Tag::Scope => is_judged_exclusive(exclusive, k + 1),
    }
}

/// Whether a row is a loop's.
fn is_loop(row: Row) -> bool
    ensures { result ≡ eqb row.tag 5 }
{
    row.tag() == Ok(Tag::Loop)
}

/// The offset of node k, where it is a loop whose body is not exclusive.
fn fault_of(rows: &[Row], k: usize, exclusive: &[bool]) -> Option<usize>
    requires { (k < length rows.now) × (length rows.now ≤ 1366) }
    ensures { fault_told result ≡ fault_by (table_numbers rows.now) (bits exclusive.now) k }
{
    if is_loop(rows[k]) && !is_judged_exclusive(exclusive, after(rows, k + 1)) {
        Some(usize::from(rows[k].at))
    } else {
        None
    }
}

/// Judges node k. Answers the offset of the first faulty loop from k on, where `later` is that behind it.
fn judge_node(rows: &[Row], k: usize, exclusive: &mut [bool], later: Option<usize>) -> Option<usize>
    requires { (k < length rows.now) × (length rows.now ≤ 1366) × (k < length exclusive.old) }
    ensures { JudgesDown (table_numbers rows.now) k (k + 1) exclusive.old exclusive.new later result }
{
    exclusive[k] = is_exclusive(rows, k, exclusive);
    fault_of(rows, k, exclusive).or(later)
}

/// Judges four nodes from k on, the last first.
fn judge_four(rows: &[Row], k: usize, exclusive: &mut [bool], later: Option<usize>) -> Option<usize>
    requires { (k + 4 ≤ length rows.now) × (length rows.now ≤ 1366) × (k + 4 ≤ length exclusive.old) }
    ensures { JudgesDown (table_numbers rows.now) k (k + 4) exclusive.old exclusive.new later result }
{
    let fourth = judge_node(rows, k + 3, exclusive, later);
    let third = judge_node(rows, k + 2, exclusive, fourth);
    let second = judge_node(rows, k + 1, exclusive, third);
    judge_node(rows, k, exclusive, second)
}

/// Judges the nodes below `high`, the node number falling. Answers the offset of the first faulty loop, where `later` is that from `high` on.
// 01 names recursion over the node table here. Four nodes to a call while there are as many: a call costs more than a node, and calls
// stay few inside each other.
fn judge(rows: &[Row], high: usize, exclusive: &mut [bool], later: Option<usize>) -> Option<usize>
    requires { (high ≤ length rows.now) × (length rows.now ≤ 1366) × (high ≤ length exclusive.old) }
    ensures { JudgesDown (table_numbers rows.now) 0 high exclusive.old exclusive.new later result }
{
    if high == 0 {
        return later;
    }
    if high < 4 {
        let found = judge_node(rows, high - 1, exclusive, later);
        return judge(rows, high - 1, exclusive, found);
    }
    let found = judge_four(rows, high - 4, exclusive, later);
    judge(rows, high - 4, exclusive, found)
}

/// The check for loops with room for as many nodes.
fn check_in(rows: &[Row], exclusive: &mut [bool]) -> Result<(), Refusal>
    requires { (length rows.now ≤ 1366) × (length rows.now ≤ length exclusive.old) }
    ensures { (E : Expr) → Table (table_numbers rows.now) (length rows.now) E → says (λ u. tt) result ≡ check_loops E }
{
    match judge(rows, rows.len(), exclusive, None) {
        Some(at) => Err(Fault::BodyNotExclusive.at(at)),
        None => Ok(()),
    }
}

/// The check for loops of the plan whose node table the rows are. Room for few nodes costs little to make.
pub fn check_loops(rows: &[Row]) -> Result<(), Refusal>
    requires { length rows.now ≤ 1366 }
    ensures { (E : Expr) → Table (table_numbers rows.now) (length rows.now) E → says (λ u. tt) result ≡ check_loops E }
{
    if rows.len() <= FEW_NODES {
        check_in(rows, &mut [false; FEW_NODES])
    } else {
        check_in(rows, &mut [false; crate::NODES])
    }
}
