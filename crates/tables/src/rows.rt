// 01, "Net tables": "six 16-bit numbers per transition .. arcs, 16-bit place numbers, inputs then outputs, each rising, transition after
// transition with no gap". How many places each action has is told beforehand, so each row and each arc is written once, where it belongs.
ghost use Rattle.std.specs.Prelude.{◌≡◌, ◌+◌, ◌*◌, ◌<◌, ◌≤◌, length};
ghost use mathlib.Core.List.{[], ◌∷◌, Memᴰ};
ghost use Rattle.std.proofs.lemmas.List.Edits.{sets};
ghost use Rattle.algebra.specs.Expr.{Expr};
ghost use Rattle.algebra.specs.Places.{places};
ghost use Rattle.algebra.specs.Transitions.{transitions};
ghost use Rattle.algebra.specs.Arcs.{transition_of, net_of};
ghost use Rattle.net.specs.Tables.{item_of, rows_of, arcs_of};
ghost use Rattle.boxes.specs.inner.ArcCounts.{item_arcs, listed_arcs};
ghost use Rattle.transitions.specs.inner.Numbers.{list_numbers};
ghost use Rattle.lists.specs.inner.Numbers.{node_table};
ghost use Rattle.spread.specs.inner.Numbers.{told_table};
ghost use Rattle.sides.specs.inner.Sides.{told_arcs, Drafted};
ghost use Rattle.tables.specs.inner.Rows.{item_at, listed_at, listed_from, Whole, Asked, Room, Put};

use net::Side;
use sides::{Draft, count_item, put_arcs};
use spread::Told;
use transitions::Transition;

// How many arcs a transition has.
fn count_transition(index: &[Told], t: Transition) -> usize
    ensures { (result ≡ item_arcs (told_arcs (told_table index.now)) (item_of t.first t.second)) × (result ≤ 262140) }
{
    count_item(index, Side::Inputs, t) + count_item(index, Side::Outputs, t)
}

/// How many arcs all transitions of the list have.
pub fn count_arcs(index: &[Told], list: &[Transition]) -> usize
    requires { length list.now ≤ 1024 }
    ensures { result ≡ listed_arcs (told_arcs (told_table index.now)) (listed_from (list_numbers list.now) 0 (length list.now)) }
{
    let mut count = 0;
    for t in list {
        count += count_transition(index, *t);
    }
    count
}

// Row k of the transitions, six numbers as in 01, "Net tables": the lent table is such numbers and nothing else.
fn put_row(rows: &mut [u16], k: usize, t: Transition, start: u16, inputs: u16, outputs: u16)
    requires { 6 * (k + 1) ≤ length rows.old }
    ensures { rows.new ≡ sets rows.old (6 * k) (t.label ∷ (t.first ∷ (t.second ∷ (start ∷ (inputs ∷ (outputs ∷ [])))))) }
{
    let row = [t.label, t.first, t.second, start, inputs, outputs];
    rows[6 * k..6 * k + 6].copy_from_slice(&row);
}

// Transition k of the list: its arcs, and its row. Answers where its arcs end.
fn put_transition(
    draft: Draft<'_>,
    list: &[Transition],
    k: usize,
    rows: &mut [u16],
    arcs: &mut [u16],
    at: usize,
    spare: &mut [u16],
) -> usize
    requires { Room (told_table draft.index.now) (list_numbers list.now) k at rows.old arcs.old }
    ensures ends { result ≡ at + item_arcs (told_arcs (told_table draft.entry.index.now)) (item_at (list_numbers list.now) k) }
    ensures puts { (E : Expr) → Drafted (node_table draft.entry.lists.now) (told_table draft.entry.index.now) E → Memᴰ (listed_at (list_numbers list.now) k) (transitions 0 E) → Put k at (transition_of (places 0 E) (listed_at (list_numbers list.now) k)) rows.old rows.new arcs.old arcs.new }
{
    let t = list[k];
    let inputs = count_item(draft.index, Side::Inputs, t);
    let outputs = count_item(draft.index, Side::Outputs, t);
    let end = at + inputs + outputs;
    put_arcs(draft, t, inputs, &mut arcs[at..end], spare);
    // There are at most 16,384 arcs, so each of these fits.
    put_row(rows, k, t, at as u16, inputs as u16, outputs as u16);
    end
}

// The places of a net that has few.
const FEW_PLACES: usize = 256;

/// All transitions of the list, with work room for as many places as the net may have: a net of few places does not pay for the limit, and
/// of a net of more the room is made once.
pub fn put_net(
    draft: Draft<'_>,
    list: &[Transition],
    rows: &mut [u16],
    arcs: &mut [u16],
    places: usize,
)
    requires { Asked (node_table draft.lists.now) (told_table draft.index.now) (list_numbers list.now) (length list.now) rows.old arcs.old }
    ensures rows { (E : Expr) → Whole (node_table draft.entry.lists.now) (told_table draft.entry.index.now) (list_numbers list.now) (length list.now) E → rows.new ≡ sets rows.old 0 (rows_of (net_of E)) }
    ensures arcs { (E : Expr) → Whole (node_table draft.entry.lists.now) (told_table draft.entry.index.now) (list_numbers list.now) (length list.now) E → arcs.new ≡ sets arcs.old 0 (arcs_of (net_of E)) }
{
    if places <= FEW_PLACES {
        put_transitions(draft, list, rows, arcs, &mut [0; FEW_PLACES]);
    } else {
        put_transitions(draft, list, rows, arcs, &mut [0; field::PLACE_LIMIT]);
    }
}

/// All transitions of the list. `spare` is work room of any length.
pub fn put_transitions(
    draft: Draft<'_>,
    list: &[Transition],
    rows: &mut [u16],
    arcs: &mut [u16],
    spare: &mut [u16],
)
    requires { Asked (node_table draft.lists.now) (told_table draft.index.now) (list_numbers list.now) (length list.now) rows.old arcs.old }
    ensures rows { (E : Expr) → Whole (node_table draft.entry.lists.now) (told_table draft.entry.index.now) (list_numbers list.now) (length list.now) E → rows.new ≡ sets rows.old 0 (rows_of (net_of E)) }
    ensures arcs { (E : Expr) → Whole (node_table draft.entry.lists.now) (told_table draft.entry.index.now) (list_numbers list.now) (length list.now) E → arcs.new ≡ sets arcs.old 0 (arcs_of (net_of E)) }
{
    let mut at = 0;
    for k in 0..list.len() {
        at = put_transition(draft, list, k, rows, arcs, at, spare);
    }
}
