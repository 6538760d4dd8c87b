// 01, "Box construction": "Scope a takes away those labelled a or a+128, keeps the rest in order, then adds a silent one for each pair
// t (label a), u (label a+128) whose actions part at a parallel field, ordered by t, then u."
ghost use Rattle.std.specs.Prelude.{◌≡◌, List, ℕ, ◌+◌, ◌*◌, ◌≤◌, length, take, IfSome};
ghost use Rattle.algebra.specs.Expr.{Expr, actions, scope};
ghost use Rattle.algebra.specs.Scopes.{ScopesNamed};
ghost use Rattle.algebra.specs.Transitions.{Labelled, part_at_parallel, kept, transitions};
ghost use Rattle.plan.specs.inner.Table.{Node};
ghost use Rattle.plan.specs.inner.Numbers.{table_numbers};
ghost use Rattle.transitions.specs.inner.Numbers.{most, flat, list_numbers};
ghost use Rattle.transitions.specs.inner.Listing.{Part, Found, Held, firsts, Lists, pairs_with, pairs_of};

use super::{Transition, add};
use crate::parting::{Parting, part_at};
use field::ACTION_LIMIT;
use plan::table::{Row, row_at};

// The first actions of the transitions with a label, in their order, and how many they are. They are single actions, so the limit of a plan
// is room enough.
fn gather(part: &[Transition], label: usize, found: &mut [u16; ACTION_LIMIT]) -> usize
    ensures fits { result ≤ 256 }
    ensures finds { (ts : List Labelled) → list_numbers part.now ≡ flat ts → length (firsts label ts) ≤ 256 → Found result found.new (firsts label ts) }
{
    let mut count = 0;
    for transition in part {
        if usize::from(transition.label) == label && count < found.len() {
            found[count] = transition.first;
            count += 1;
        }
    }
    count
}

// Takes the transitions labelled with a name or its conjugate out of a part of the list, and keeps the rest in order: how many. It works in
// place, so the part is read by number.
fn keep(part: &mut [Transition], name: usize) -> usize
    requires { name ≤ 65535 }
    ensures fits { result ≤ length part.old }
    ensures keeps { (ts : List Labelled) → list_numbers part.old ≡ flat ts → Held result 0 (kept name ts) (list_numbers part.old) (list_numbers part.new) }
{
    let mut so_far = 0;
    for t in 0..part.len() {
        let transition = part[t];
        let label = usize::from(transition.label);
        if label != name && label != name + 128 {
            part[so_far] = transition;
            so_far += 1;
        }
    }
    so_far
}

// Adds a silent transition for action i with each of the others that part from it at a parallel field of node k.
fn join_one(
    rows: &[Row],
    k: usize,
    i: u16,
    others: &[u16],
    list: &mut [Transition],
    n: usize,
) -> Option<usize>
    requires { (k ≤ 65535) × (length rows.now ≤ 1366) × (most ≤ length list.old) × (n ≤ most) }
    ensures fits { IfSome result (λ m. (n ≤ m) × (m ≤ most)) }
    ensures lists { (nodes f at : ℕ) (E : Expr) → Node (table_numbers rows.now) nodes k f at E → Lists result n 0 (pairs_with (part_at_parallel f E) i others.now) (list_numbers list.old) (list_numbers list.new) }
{
    let mut so_far = n;
    let mut parting = Parting::default();
    for &j in others {
        parting = part_at(rows, k, usize::from(i), usize::from(j), parting);
        if parting.apart {
            let joined = Transition {
                label: 0,
                first: i,
                second: j,
            };
            so_far = add(list, so_far, joined)?;
        }
    }
    Some(so_far)
}

// The same for each of some actions in turn.
fn join(
    rows: &[Row],
    k: usize,
    left: &[u16],
    right: &[u16],
    list: &mut [Transition],
    n: usize,
) -> Option<usize>
    requires { (k ≤ 65535) × (length rows.now ≤ 1366) × (most ≤ length list.old) × (n ≤ most) }
    ensures fits { IfSome result (λ m. (n ≤ m) × (m ≤ most)) }
    ensures lists { (nodes f at : ℕ) (E : Expr) → Node (table_numbers rows.now) nodes k f at E → Lists result n 0 (pairs_of (part_at_parallel f E) left.now right.now) (list_numbers list.old) (list_numbers list.new) }
{
    let mut so_far = n;
    for &i in left {
        so_far = join_one(rows, k, i, right, list, so_far)?;
    }
    Some(so_far)
}

/// Closes the scope of node k, whose operand's transitions stand in the list from `start` to `end`: how many the list then holds, or none
/// where it would hold more than the most.
pub fn close(
    rows: &[Row],
    k: usize,
    list: &mut [Transition],
    start: usize,
    end: usize,
) -> Option<usize>
    requires { (k ≤ 1366) × (length rows.now ≤ 1366) × (most ≤ length list.old) × (start ≤ most) × (end ≤ most) }
    ensures fits { IfSome result (λ m. (start ≤ m) × (m ≤ most)) }
    ensures lists { (count i at a : ℕ) (E : Expr) → Node (table_numbers rows.now) count k i at (scope a E) → ScopesNamed (scope a E) → actions E ≤ 256 → Part (list_numbers list.old) start end (transitions i E) → Lists result start (actions E) (transitions i (scope a E)) (list_numbers list.old) (list_numbers list.new) }
{
    if end < start {
        // No operand's transitions end before they start.
        return Some(start);
    }
    let name = usize::from(row_at(rows, k).byte);
    let mut left = [0; ACTION_LIMIT];
    let lefts = gather(&list[start..end], name, &mut left);
    let mut right = [0; ACTION_LIMIT];
    let rights = gather(&list[start..end], name + 128, &mut right);
    let kept = keep(&mut list[start..end], name);
    join(
        rows,
        k + 1,
        &left[..lefts],
        &right[..rights],
        list,
        start + kept,
    )
}
