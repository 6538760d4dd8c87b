// 01, "Net tables": the places of a transition, "inputs then outputs, each rising", from the lists of its actions: "both input sets and both
// output sets". How many places each action has is told beforehand, so each is written once, where it belongs.
#![tactic(auto)]

ghost use Rattle.std.specs.Prelude.{◌≡◌, true, cond, [], ◌∷◌, ◌+◌, ◌*◌, ◌≤◌, length, get_or, ltb};
ghost use Rattle.algebra.specs.Item.{one, two};
ghost use Rattle.net.specs.Tables.{item_of};
ghost use Rattle.net.specs.declared.Side.TheVariants.{Inputs, Outputs};
ghost use Rattle.boxes.specs.inner.ArcCounts.{item_arcs};
ghost use Rattle.lists.specs.inner.Lists.{place_of};
ghost use Rattle.lists.specs.inner.Numbers.{node_table};
ghost use Rattle.spread.specs.inner.Numbers.{told_table};
ghost use Rattle.sides.specs.inner.Sides.{told_count, told_row, Placed, PlacedBoth, PlacedPair, InOrder};

use arcs::merge::merge;
use lists::Node;
use lists::placing::put_places;
use net::Side;
use spread::Told;
use transitions::Transition;

/// The work tables of a plan: the lists of every node, and what is told of every action.
#[derive(Clone, Copy)]
pub struct Draft<'a> {
    pub lists: &'a [Node<u16>],
    pub index: &'a [Told],
}

// What is told of action i; past the end zeros.
fn told_at(index: &[Told], i: usize) -> Told
    ensures { result ≡ told_row (told_table index.now) i }
{
    if i < index.len() {
        index[i]
    } else {
        Told::default()
    }
}

// How many places an action has on one side.
fn count_of(index: &[Told], side: Side, i: usize) -> usize
    ensures { (result ≡ told_count (told_table index.now) side i) × (result ≤ 65535) }
{
    usize::from(told_at(index, i).on(side))
}

/// How many places a transition has on one side: as many as its action, or as both its actions, which share none.
pub fn count_item(index: &[Told], side: Side, t: Transition) -> usize
    ensures { (result ≡ item_arcs (told_count (told_table index.now) side) (item_of t.first t.second)) × (result ≤ 131070) }
{
    let count = count_of(index, side, usize::from(t.first));
    let second = usize::from(t.second);
    if second == field::NO_SECOND {
        return count;
    }
    count + count_of(index, side, second)
}

// The first of an action's places on one side.
fn first_place(draft: Draft<'_>, side: Side, i: usize) -> u16
    ensures { result ≡ get_or (node_table draft.entry.lists.now) (place_of side (get_or (told_table draft.entry.index.now) (3 * i) 0)) 0 }
{
    let node = usize::from(told_at(draft.index, i).node);
    if node < draft.lists.len() {
        draft.lists[node].on(side).base
    } else {
        0
    }
}

// The places of an action on one side, into a part of the arcs that is as long as they are many.
fn put_one(draft: Draft<'_>, i: usize, side: Side, part: &mut [u16])
    requires { length part.old ≤ 65536 }
    ensures { Placed (node_table draft.entry.lists.now) (told_table draft.entry.index.now) side (one i) part.old part.new }
{
    let node = told_at(draft.index, i).node;
    put_places(draft.lists, usize::from(node), side, part);
}

// Whether the number before place m is below the one there.
fn is_in_order(part: &[u16], m: usize) -> bool
    ensures { result ≡ true → InOrder part.now m }
{
    0 < m && m < part.len() && part[m - 1] < part[m]
}

// The places of two actions, one list behind the other, the second's from place m on. Two actions, a side and where the second begins are
// parameters here and below: the three are called at one place each, and a struct would be made for that call alone.
fn put_pair(draft: Draft<'_>, i: usize, j: usize, side: Side, m: usize, part: &mut [u16])
    requires { (m ≡ told_count (told_table draft.index.now) side i) × (length part.old ≡ m + told_count (told_table draft.index.now) side j) × (length part.old ≤ 2048) }
    ensures { PlacedPair (node_table draft.entry.lists.now) (told_table draft.entry.index.now) side i j part.new }
{
    put_one(draft, i, side, &mut part[..m]);
    put_one(draft, j, side, &mut part[m..]);
}

// The same in rising order: the two lists are put into room that is as long as both, and merged from there.
fn put_merged(
    draft: Draft<'_>,
    i: usize,
    j: usize,
    side: Side,
    m: usize,
    room: &mut [u16],
    part: &mut [u16],
)
    requires { (m ≡ told_count (told_table draft.index.now) side i) × (length room.old ≡ m + told_count (told_table draft.index.now) side j) × (length room.old ≤ 2048) }
    ensures { Placed (node_table draft.entry.lists.now) (told_table draft.entry.index.now) side (two i j) part.old part.new }
{
    put_pair(draft, i, j, side, m, room);
    // Lent whole first: the borrow checker takes two parts of one loan, and not two loans of a part each.
    let both = &room[..];
    merge(&both[..m], &both[m..], part);
}

// The places of two actions, those of the first before those of the second. Where the second's are all above them they rise as they
// stand. Else they are merged, by way of work room: the lent one where it is long enough, or an array of its own.
fn put_both(draft: Draft<'_>, i: usize, j: usize, side: Side, part: &mut [u16], spare: &mut [u16])
    requires { (length part.old ≡ told_count (told_table draft.index.now) side i + told_count (told_table draft.index.now) side j) × (length part.old ≤ 2048) }
    ensures { Placed (node_table draft.entry.lists.now) (told_table draft.entry.index.now) side (two i j) part.old part.new }
{
    let m = count_of(draft.index, side, i);
    put_pair(draft, i, j, side, m, part);
    if is_in_order(part, m) {
        return;
    }
    let n = part.len();
    if n <= spare.len() {
        put_merged(draft, i, j, side, m, &mut spare[..n], part);
        return;
    }
    let mut own = [0u16; field::PLACE_LIMIT];
    put_merged(draft, i, j, side, m, &mut own[..n], part);
}

// Two places, the lower first.
fn put_two(part: &mut [u16], p: u16, q: u16)
    requires { length part.old ≡ 2 }
    ensures { part.new ≡ cond (ltb p q) (p ∷ (q ∷ [])) (q ∷ (p ∷ [])) }
{
    part[0] = p.min(q);
    part[1] = p.max(q);
}

// The places of a transition on one side: "both input sets and both output sets". Every action has a place, and its list begins with its first
// one. So a single place is the first one of one action, and two places of two actions are the first one of each: no list is gone through.
// Else, of two actions the one whose first place is lower goes first; there is one call for both orders, so that its code is put in place.
fn put_side(draft: Draft<'_>, t: Transition, side: Side, part: &mut [u16], spare: &mut [u16])
    requires { (length part.old ≡ item_arcs (told_count (told_table draft.index.now) side) (item_of t.first t.second)) × (length part.old ≤ 2048) }
    ensures { Placed (node_table draft.entry.lists.now) (told_table draft.entry.index.now) side (item_of t.first t.second) part.old part.new }
{
    let first = usize::from(t.first);
    let second = usize::from(t.second);
    let p = first_place(draft, side, first);
    if part.len() == 1 {
        part[0] = p;
        return;
    }
    if second == field::NO_SECOND {
        put_one(draft, first, side, part);
        return;
    }
    let q = first_place(draft, side, second);
    if part.len() == 2 {
        put_two(part, p, q);
        return;
    }
    let (low, high) = if q < p {
        (second, first)
    } else {
        (first, second)
    };
    put_both(draft, low, high, side, part, spare);
}

/// The inputs of a transition and behind them its outputs, into its part of the arcs.
pub fn put_arcs(draft: Draft<'_>, t: Transition, inputs: usize, part: &mut [u16], spare: &mut [u16])
    requires { (inputs ≡ item_arcs (told_count (told_table draft.index.now) Inputs) (item_of t.first t.second)) × (length part.old ≡ inputs + item_arcs (told_count (told_table draft.index.now) Outputs) (item_of t.first t.second)) × (inputs ≤ 2048) × (length part.old ≤ inputs + 2048) }
    ensures { PlacedBoth (node_table draft.entry.lists.now) (told_table draft.entry.index.now) (item_of t.first t.second) part.new }
{
    put_side(draft, t, Side::Inputs, &mut part[..inputs], spare);
    put_side(draft, t, Side::Outputs, &mut part[inputs..], spare);
}
