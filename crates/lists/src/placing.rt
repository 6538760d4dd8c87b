// The numbers of an action's places, written from where its list stands: a run, and then copy after copy of what is there.
ghost use Rattle.std.specs.Prelude.{◌≡◌, List, [], ◌∷◌, ℕ, ◌+◌, ◌*◌, ◌%◌, ◌≤◌, ◌<◌, length, get_or};
ghost use Rattle.arcs.specs.inner.Spreads.{Factor, Spread, copied, placed};
ghost use Rattle.plan.specs.inner.Table.{Stands};
ghost use Rattle.lists.specs.inner.Lists.{list_row, place_of, Chain, Means};
ghost use Rattle.lists.specs.inner.Numbers.{node_table};
ghost use Rattle.lists.specs.inner.Placing.{Small, Stepped, CopiedOn};

// `List` is any list in the clauses.
use crate::{List as OneList, Node, short};
use net::Side;

// Numbers that rise by `step` from one on, as many as the slice is long.
fn put_steps(out: &mut [u16], from: u16, step: u16)
    requires { length out.old ≤ 65536 }
    ensures { Stepped from step (length out.old) out.old out.new }
{
    let mut next = usize::from(from);
    for number in out.iter_mut() {
        *number = short(next);
        next += usize::from(step);
    }
}

// Each number from place `count` up to `end` is `step` more than the one `count` places before it.
fn copy_on(out: &mut [u16], count: usize, end: usize, step: u16)
    requires { (0 < count) × (count ≤ end) × (end ≤ length out.old) }
    ensures { CopiedOn step count end out.old out.new }
{
    for k in count..end {
        out[k] = short(usize::from(out[k - count]) + usize::from(step));
    }
}

// What stands in front of a slice, `count` numbers, becomes `end` numbers by copies, each `step` more. A single number need not be read back.
fn put_copies(out: &mut [u16], count: usize, end: usize, step: u16)
    requires { (0 < count) × (count ≤ end) × (end ≤ length out.old) × (length out.old ≤ 65536) }
    ensures { CopiedOn step count end out.old out.new }
{
    if count == 1 {
        let from = out[0];
        put_steps(&mut out[..end], from, step);
        return;
    }
    copy_on(out, count, end, step);
}

// The copies of `count` numbers in front of a slice by a list, and then by those that it goes on with, which are earlier nodes'. On a table
// that is in order no test here fails; on any other the copying ends.
fn put_chain(
    lists: &[Node<u16>],
    side: Side,
    below: usize,
    list: OneList<u16>,
    out: &mut [u16],
    count: usize,
)
    requires { (below ≤ length lists.now) × (0 < count) × (length out.old ≤ 65536) }
    ensures { (fs : List Factor) (ps : List ℕ) → Chain (node_table lists.now) side below list.times list.step list.up fs → length ps ≡ count → Stands out.old 0 ps → length (copied fs ps) ≤ length out.old → Small (copied fs ps) → Stands out.new 0 (copied fs ps) }
{
    let up = usize::from(list.up);
    if list.times == 0 || below <= up || out.len() <= count {
        return;
    }
    let end = usize::from(list.times) * count;
    if out.len() < end {
        return;
    }
    put_copies(out, count, end, list.step);
    put_chain(lists, side, up, lists[up].on(side), out, end);
}

/// The places of the action that node k is, on one side, into a slice that is as long as they are many.
pub fn put_places(lists: &[Node<u16>], k: usize, side: Side, out: &mut [u16])
    requires { length out.old ≤ 65536 }
    ensures { (s : Spread) → 11 * k + 11 ≤ length (node_table lists.now) → Means (node_table lists.now) side k (list_row (node_table lists.now) (place_of side k)) s → 0 < s.width → length out.old ≡ length (placed s (0 ∷ [])) → Small (placed s (0 ∷ [])) → out.new ≡ placed s (0 ∷ []) }
{
    if lists.len() <= k {
        return;
    }
    let list = lists[k].on(side);
    let width = usize::from(list.width);
    if width == 0 || out.len() < width {
        return;
    }
    put_steps(&mut out[..width], list.base, 1);
    put_chain(lists, side, k, list, out, width);
}

// How many numbers `count` become by the copies of a list, and by those of the lists that it goes on with.
fn count_chain(lists: &[Node<u16>], side: Side, below: usize, list: OneList<u16>, count: u16) -> u16
    requires { below ≤ length lists.now }
    ensures { (step : ℕ) (fs : List Factor) (ps : List ℕ) → Chain (node_table lists.now) side below list.times step list.up fs → length ps ≡ count → length (copied fs ps) ≤ 65535 → result ≡ length (copied fs ps) }
{
    let up = usize::from(list.up);
    if list.times == 0 || below <= up {
        return count;
    }
    let copies = short(usize::from(list.times) * usize::from(count));
    count_chain(lists, side, up, lists[up].on(side), copies)
}

/// How many places the action that node k is has on one side: the factors of its list, multiplied.
pub fn count_places(lists: &[Node<u16>], k: usize, side: Side) -> u16
    ensures { (s : Spread) → 11 * k + 11 ≤ length (node_table lists.now) → Means (node_table lists.now) side k (list_row (node_table lists.now) (place_of side k)) s → length (placed s (0 ∷ [])) ≤ 65535 → result ≡ length (placed s (0 ∷ [])) }
{
    if lists.len() <= k {
        return 0;
    }
    let list = lists[k].on(side);
    count_chain(lists, side, k, list, list.width)
}
