// 01, "Box construction": "Transitions stand in operand order. Scope a takes away those labelled a or a+128, keeps the rest in order,
// then adds a silent one for each pair". The nodes are passed in the order of the bytes, in which an operand's actions stand together.
#![tactic(auto)]

pub mod parting;
pub mod scope;

ghost use Rattle.std.specs.Prelude.{◌≡◌, List, ℕ, ◌+◌, ◌*◌, ◌≤◌, ◌<◌, T, length, slice_set, IfSome, IsNone};
ghost use Rattle.algebra.specs.Expr.{Expr, actions, scope};
ghost use Rattle.algebra.specs.Scopes.{ScopesNamed};
ghost use Rattle.algebra.specs.Transitions.{transitions};
ghost use Rattle.plan.specs.Bytes.{named};
ghost use Rattle.plan.specs.inner.Nodes.{node_count};
ghost use Rattle.plan.specs.inner.Table.{Table, Node};
ghost use Rattle.plan.specs.inner.Numbers.{table_numbers};
ghost use Rattle.transitions.specs.inner.Numbers.{most, list_numbers, Fits, ListIs};
ghost use Rattle.transitions.specs.inner.Listing.{Lists, Operands, AllNamed, all_actions, all_transitions};

use field::{Fault, Refusal};
use plan::table::{Row, Tag};

/// A list of more transitions than there may be actions and transitions together has more joined pairs than there may be transitions,
/// and no scope takes a pair away.
pub const MOST: usize = field::ACTION_LIMIT + field::TRANSITION_LIMIT;

const NO_SECOND: u16 = field::NO_SECOND as u16;

/// One transition while it is listed: label, first action, second action or 65,535 (01, "Net tables").
#[derive(Clone, Copy, Debug, Default, PartialEq, Eq)]
pub struct Transition {
    pub label: u16,
    pub first: u16,
    pub second: u16,
}

// Adds a transition behind the first n of the list: how many it then holds, or none where it would hold more than the most. The list is
// room that the caller lends (there is no heap), so how many it holds stands beside it.
fn add(list: &mut [Transition], n: usize, transition: Transition) -> Option<usize>
    requires { most ≤ length list.old }
    ensures full { IsNone result → most ≤ n }
    ensures added { IfSome result (λ m. (m ≡ n + 1) × (m ≤ most) × (list.new ≡ slice_set list.old n transition)) }
{
    if n >= MOST {
        return None;
    }
    list[n] = transition;
    Some(n + 1)
}

// The transitions of the operands from node k to node `end`, behind the first n of the list: how many the list then holds, or none where
// it would hold more than the most. A field's operands stand behind its own node, so the walk just goes on; only a scope, which takes some
// away, is listed by itself, and the walk then jumps behind it: hence no `for`.
#[cycle(list_nodes_list_scope)]
fn list_nodes(
    rows: &[Row],
    k: usize,
    end: usize,
    list: &mut [Transition],
    n: usize,
) -> Option<usize>
    requires { (end ≤ length rows.now) × (length rows.now ≤ 1366) × (most ≤ length list.old) × (n ≤ most) }
    ensures fits { IfSome result (λ m. (n ≤ m) × (m ≤ most)) }
    ensures lists { (count i : ℕ) (Es : List Expr) → Operands (table_numbers rows.now) count k end i Es → AllNamed Es → all_actions Es ≤ 256 → Lists result n (all_actions Es) (all_transitions i Es) (list_numbers list.old) (list_numbers list.new) }
{
    let mut at = k;
    let mut so_far = n;
    // The walk jumps behind a scope, so it is no range.
    while at < end {
        let row = rows[at];
        let Ok(tag) = row.tag() else {
            // No plan has such a row. It is passed here, so that the match names every tag and no more.
            at += 1;
            continue;
        };
        match tag {
            Tag::Action => {
                let single = Transition {
                    label: row.byte,
                    first: row.first,
                    second: NO_SECOND,
                };
                so_far = add(list, so_far, single)?;
                at += 1;
            }
            Tag::Scope => {
                let after = usize::from(row.after);
                // In a node table a scope ends behind its own node and inside the field. With this test the recursion ends on any rows.
                if after <= at || end < after {
                    return None;
                }
                so_far = list_scope(rows, at, after, list, so_far)?;
                at = after;
            }
            // Its operands' nodes follow its own.
            Tag::Sequence | Tag::Choice | Tag::Parallel | Tag::Loop => at += 1,
        }
    }
    Some(so_far)
}

// The transitions of the scope of node k, whose subtree ends before node `after`.
#[cycle(list_nodes_list_scope)]
fn list_scope(
    rows: &[Row],
    k: usize,
    after: usize,
    list: &mut [Transition],
    n: usize,
) -> Option<usize>
    requires { (k < after) × (after ≤ length rows.now) × (length rows.now ≤ 1366) × (most ≤ length list.old) × (n ≤ most) }
    ensures fits { IfSome result (λ m. (n ≤ m) × (m ≤ most)) }
    ensures lists { (count i at a : ℕ) (E : Expr) → Node (table_numbers rows.now) count k i at (scope a E) → after ≡ k + node_count (scope a E) → ScopesNamed (scope a E) → actions E ≤ 256 → Lists result n (actions E) (transitions i (scope a E)) (list_numbers list.old) (list_numbers list.new) }
{
    let end = list_nodes(rows, k + 1, after, list, n)?;
    scope::close(rows, k, list, n, end)
}

/// Lists the transitions of the plan with this node table: how many they are, or 01's refusal where a net may not have so many. What a
/// scope takes away is listed for a while, so the list has room for more, and behind the transitions it is work room.
pub fn list_transitions(rows: &[Row], list: &mut [Transition]) -> Result<usize, Refusal>
    requires { (length rows.now ≤ 1366) × (most ≤ length list.old) }
    ensures fits { Fits result }
    ensures lists { (E : Expr) → Table (table_numbers rows.now) (length rows.now) E → actions E ≤ 256 → T (named E) → ListIs result (transitions 0 E) (list_numbers list.new) }
{
    match list_nodes(rows, 0, rows.len(), list, 0) {
        Some(n) if n <= field::TRANSITION_LIMIT => Ok(n),
        _ => Err(Fault::TooManyTransitions.at(0)),
    }
}
