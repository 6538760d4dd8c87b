// 01, "Box construction": how many entries, internals and exits each node of the node table has, cut off at one above the limit of places.
// The node number falls, so that a node's operands, whose numbers are higher, are counted before it.
ghost use Rattle.std.specs.Prelude.{◌≡◌, ◌++◌, ◌+◌, ◌*◌, ◌<◌, ◌≤◌, length, drop};
ghost use Rattle.field.specs.Limits.{place_limit};
ghost use Rattle.algebra.specs.Expr.{Expr};
ghost use Rattle.plan.specs.inner.Table.{Table};
ghost use Rattle.plan.specs.inner.Numbers.{table_numbers};
ghost use Rattle.boxes.specs.Counts.{cut};
ghost use Rattle.boxes.specs.inner.NodeCounts.{node_counts};
ghost use Rattle.boxes.specs.inner.Counted.{counts_numbers, counts_at, sequence_counts, choice_counts, parallel_counts, loop_counts, counts_by, CountsDown};

use plan::table::{Row, Tag, after, row_at};

/// How many places of each kind a box has.
#[derive(Clone, Copy, Debug, Default, PartialEq, Eq)]
pub struct Counts {
    pub entries: u16,
    pub internals: u16,
    pub exits: u16,
}

/// The counts of node k; past the end zeros.
pub fn counts_at(counts: &[Counts], k: usize) -> Counts
    ensures { result ≡ counts_at (counts_numbers counts.now) k }
{
    if k < counts.len() {
        counts[k]
    } else {
        Counts::default()
    }
}

// At most one above the limit: enough to refuse by, and a number of 16 bits. A sum or a product of counts is cut off at once, so that none on the
// way is too large for a word.
fn cut_off(n: usize) -> u16
    ensures { result ≡ cut place_limit n }
{
    n.min(field::PLACE_LIMIT + 1) as u16
}

fn sum(a: u16, b: u16) -> u16
    ensures { result ≡ cut place_limit (a + b) }
{
    cut_off(usize::from(a) + usize::from(b))
}

fn product(a: u16, b: u16) -> u16
    ensures { result ≡ cut place_limit (a * b) }
{
    cut_off(usize::from(a) * usize::from(b))
}

// "E;F: entries of E; internals of E, of F, then exits(E)×entries(F); exits of F."
fn of_sequence(e: Counts, f: Counts) -> Counts
    ensures { result ≡ sequence_counts e f }
{
    Counts {
        entries: e.entries,
        internals: sum(e.internals, sum(f.internals, product(e.exits, f.entries))),
        exits: f.exits,
    }
}

// "E□F: entries(E)×entries(F); internals joined; exits(E)×exits(F)."
fn of_choice(e: Counts, f: Counts) -> Counts
    ensures { result ≡ choice_counts e f }
{
    Counts {
        entries: product(e.entries, f.entries),
        internals: sum(e.internals, f.internals),
        exits: product(e.exits, f.exits),
    }
}

// "E‖F: each list joined, E's first."
fn of_parallel(e: Counts, f: Counts) -> Counts
    ensures { result ≡ parallel_counts e f }
{
    Counts {
        entries: sum(e.entries, f.entries),
        internals: sum(e.internals, f.internals),
        exits: sum(e.exits, f.exits),
    }
}

// "Loop: entries of E; internals of E, F, G, then exits(E)×exits(F)×entries(F)×entries(G); exits of G."
fn of_loop(e: Counts, f: Counts, g: Counts) -> Counts
    ensures { result ≡ loop_counts e f g }
{
    let places = product(product(e.exits, f.exits), product(f.entries, g.entries));
    Counts {
        entries: e.entries,
        internals: sum(e.internals, sum(f.internals, sum(g.internals, places))),
        exits: g.exits,
    }
}

// The counts of node k from those of its operands.
#[tactic(auto, unfolding(crate::specs::inner::Counted::counts_by))]
fn counts_of(rows: &[Row], k: usize, counts: &[Counts]) -> Counts
    requires { k ≤ 65535 }
    ensures { result ≡ counts_by (table_numbers rows.now) (counts_numbers counts.now) k }
{
    let first = k + 1;
    let operand = |k: usize| counts_at(counts, k);
    match row_at(rows, k).tag() {
        Ok(Tag::Action) => Counts {
            entries: 1,
            internals: 0,
            exits: 1,
        },
        Ok(Tag::Sequence) => of_sequence(operand(first), operand(after(rows, first))),
        Ok(Tag::Choice) => of_choice(operand(first), operand(after(rows, first))),
        Ok(Tag::Parallel) => of_parallel(operand(first), operand(after(rows, first))),
        Ok(Tag::Scope) => operand(first),
        // No row of a plan has another tag.
        Ok(Tag::Loop) | Err(_) => {
            let second = after(rows, first);
            of_loop(
                operand(first),
                operand(second),
                operand(after(rows, second)),
            )
        }
    }
}

// Counts node k.
fn count_node(rows: &[Row], k: usize, counts: &mut [Counts])
    requires { (k < 1366) × (k < length counts.old) }
    ensures { CountsDown (table_numbers rows.now) k (k + 1) (counts_numbers counts.old) (counts_numbers counts.new) }
{
    counts[k] = counts_of(rows, k, counts);
}

// Counts four nodes from k on, the last first.
fn count_four(rows: &[Row], k: usize, counts: &mut [Counts])
    requires { (k + 4 ≤ 1366) × (k + 4 ≤ length counts.old) }
    ensures { CountsDown (table_numbers rows.now) k (k + 4) (counts_numbers counts.old) (counts_numbers counts.new) }
{
    count_node(rows, k + 3, counts);
    count_node(rows, k + 2, counts);
    count_node(rows, k + 1, counts);
    count_node(rows, k, counts);
}

// Counts the nodes below `high`. 01, "Form by location", wants recursion over the node table here, the node number falling, and so it is no loop;
// four nodes to a call while there are as many, because a call costs more than a node and calls stay few inside each other.
fn count(rows: &[Row], high: usize, counts: &mut [Counts])
    requires { (high ≤ 1366) × (high ≤ length counts.old) }
    ensures { CountsDown (table_numbers rows.now) 0 high (counts_numbers counts.old) (counts_numbers counts.new) }
{
    if high == 0 {
        return;
    }
    if high < 4 {
        count_node(rows, high - 1, counts);
        count(rows, high - 1, counts);
        return;
    }
    count_four(rows, high - 4, counts);
    count(rows, high - 4, counts);
}

/// The counts of every node of the plan whose node table the rows are; what lies behind them is not written.
pub fn count_places(rows: &[Row], counts: &mut [Counts])
    requires { (length rows.now ≤ 1366) × (length rows.now ≤ length counts.old) }
    ensures { (E : Expr) → Table (table_numbers rows.now) (length rows.now) E → counts_numbers counts.new ≡ node_counts E ++ drop (3 * length rows.now) (counts_numbers counts.old) }
{
    count(rows, rows.len(), counts);
}
