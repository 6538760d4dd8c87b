// 01, "Refusal numbers": "Plan: 1; then fields in byte order ..; 10 after all reading; then 11, 12": the compile call's judgement before
// any arc is made, and the work tables that the arcs are made from.
ghost use Rattle.std.specs.Prelude.{◌≡◌, ◌+◌, ◌*◌, ◌≤◌, T, leb, length, get_or};
ghost use Rattle.field.specs.Limits.{plan_limit, place_limit};
ghost use Rattle.field.specs.Says.{says};
ghost use Rattle.algebra.specs.Expr.{Expr, actions};
ghost use Rattle.plan.specs.Bytes.{named};
ghost use Rattle.plan.specs.inner.Table.{Table};
ghost use Rattle.plan.specs.inner.Numbers.{table_numbers};
ghost use Rattle.boxes.specs.inner.Counted.{counts_numbers};
ghost use Rattle.transitions.specs.inner.Numbers.{most, list_numbers};
ghost use Rattle.judging.specs.inner.Judged.{judged};
ghost use Rattle.judging.specs.inner.Ready.{sizes_told, ready, TablesAre, Fine};

use boxes::counts::{Counts, count_places, counts_at};
use field::{Fault, Refusal};
use plan::exclusive::check_loops;
use plan::read_plan_in;
use plan::table::Row;
use transitions::{Transition, list_transitions};

/// How many nodes and transitions a plan has that passes 1 to 12.
#[derive(Clone, Copy, Debug, PartialEq, Eq)]
pub struct Ready {
    pub nodes: usize,
    pub transitions: usize,
}

// 11: the counts of node 0, which is the whole plan. Each is at most one above the limit, and so is too large by itself where it is cut off.
fn places_fit(counts: &[Counts]) -> bool
    ensures { result ≡ leb (get_or (counts_numbers counts.now) 0 0 + (get_or (counts_numbers counts.now) 1 0 + get_or (counts_numbers counts.now) 2 0)) place_limit }
{
    let whole = counts_at(counts, 0);
    let inner = usize::from(whole.internals) + usize::from(whole.exits);
    usize::from(whole.entries) + inner <= field::PLACE_LIMIT
}

// What is asked of a plan that was read: 10, 11, 12.
fn judge(rows: &[Row], counts: &mut [Counts], list: &mut [Transition]) -> Result<Ready, Refusal>
    requires { (length rows.now ≤ 1366) × (length rows.now ≤ length counts.old) × (most ≤ length list.old) }
    ensures { (E : Expr) → Table (table_numbers rows.now) (length rows.now) E → actions E ≤ 256 → T (named E) → Fine E result (counts_numbers counts.old) (counts_numbers counts.new) (list_numbers list.new) }
{
    check_loops(rows)?;
    count_places(rows, counts);
    if !places_fit(counts) {
        return Err(Fault::TooManyPlaces.at(0));
    }
    let transitions = list_transitions(rows, list)?;
    Ok(Ready {
        nodes: rows.len(),
        transitions,
    })
}

/// The judgement as far as 12. Where there is no refusal the three work tables begin with the plan's nodes, their counts of places, and
/// its transitions. A field takes 3 bytes at least, so a row and its counts for each three bytes are room enough.
pub fn front(
    plan: &[u8],
    table: &mut [Row],
    counts: &mut [Counts],
    list: &mut [Transition],
) -> Result<Ready, Refusal>
    requires plan_in_bounds { length plan.now ≤ plan_limit → (length plan.now ≤ 3 * length table.old + 2) × (length plan.now ≤ 3 * length counts.old + 2) }
    requires most_in_bounds { most ≤ length list.old }
    ensures answer { says sizes_told result ≡ ready plan.now }
    ensures tables { TablesAre result (judged plan.now) (table_numbers table.old) (table_numbers table.new) (counts_numbers counts.old) (counts_numbers counts.new) (list_numbers list.new) }
{
    let sizes = read_plan_in(plan, table)?;
    judge(&table[..sizes.nodes], counts, list)
}
