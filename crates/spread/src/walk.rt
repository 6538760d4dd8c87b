// One pass over the node table, in which a node stands before its operands: each node's lists are known when the pass comes to it, and it
// puts those of its operands. No depth is asked for, since every node has a row of its own.
ghost use Rattle.std.specs.Prelude.{◌≡◌, ℕ, ◌+◌, ◌≤◌, ◌<◌, length};
ghost use Rattle.algebra.specs.Expr.{Expr, actions};
ghost use Rattle.plan.specs.inner.Numbers.{table_numbers, first_at};
ghost use Rattle.boxes.specs.inner.Counted.{counts_at, counts_numbers};
ghost use Rattle.arcs.specs.inner.Moves.{sequence_move, choice_move, parallel_move};
ghost use Rattle.lists.specs.inner.Numbers.{node_table};
ghost use Rattle.spread.specs.inner.Numbers.{told_table};
ghost use Rattle.spread.specs.inner.Walk.{root_put, two_put, three_put, operands_put, ActionPut};
ghost use Rattle.spread.specs.inner.Spread.{Of};
ghost use Rattle.spread.specs.inner.Spread as spec;

use crate::Told;
use boxes::counts::{Counts, counts_at};
use field::Fault;
use lists::placing::count_places;
use lists::{Node, lowered, places_from, put_node};
use net::Side;
use plan::table::{Row, Tag, after};

// "Final numbers: entries from 0, then internals, then exits."
fn put_root(counts: &[Counts], lists: &mut [Node<u16>])
    ensures { node_table lists.new ≡ root_put (counts_at (counts_numbers counts.now) 0) (node_table lists.old) }
{
    let whole = counts_at(counts, 0);
    let first_internal = usize::from(whole.entries);
    let entries = places_from(0);
    let exits = places_from(first_internal + usize::from(whole.internals));
    put_node(lists, 0, entries, exits, first_internal);
}

// "E;F: entries of E; internals of E, of F, then exits(E)×entries(F); exits of F."
fn put_sequence(lists: &mut [Node<u16>], k: usize, second: usize, e: Counts, f: Counts)
    requires { k < length lists.old }
    ensures { node_table lists.new ≡ two_put sequence_move (node_table lists.old) k second e f }
{
    let node = lists[k].wide();
    let e_exits = usize::from(e.exits);
    let f_entries = usize::from(f.entries);
    let off = usize::from(e.internals) + usize::from(f.internals);
    let internals = places_from(node.internal);
    let exits = lowered(internals, k, 1, f_entries, 0, off);
    put_node(lists, k + 1, node.entries, exits, node.internal);
    let entries = lowered(internals, k, e_exits, 1, f_entries, off);
    let internal = node.internal + usize::from(e.internals);
    put_node(lists, second, entries, node.exits, internal);
}

// "E□F: entries(E)×entries(F); internals joined; exits(E)×exits(F)."
fn put_choice(lists: &mut [Node<u16>], k: usize, second: usize, e: Counts, f: Counts)
    requires { k < length lists.old }
    ensures { node_table lists.new ≡ two_put choice_move (node_table lists.old) k second e f }
{
    let node = lists[k].wide();
    let e_entries = usize::from(e.entries);
    let f_entries = usize::from(f.entries);
    let e_exits = usize::from(e.exits);
    let f_exits = usize::from(f.exits);
    let entries = lowered(node.entries, k, 1, f_entries, 0, 0);
    let exits = lowered(node.exits, k, 1, f_exits, 0, 0);
    put_node(lists, k + 1, entries, exits, node.internal);
    let entries = lowered(node.entries, k, e_entries, 1, f_entries, 0);
    let exits = lowered(node.exits, k, e_exits, 1, f_exits, 0);
    let internal = node.internal + usize::from(e.internals);
    put_node(lists, second, entries, exits, internal);
}

// "E‖F: each list joined, E's first."
fn put_parallel(lists: &mut [Node<u16>], k: usize, second: usize, e: Counts, f: Counts)
    requires { k < length lists.old }
    ensures { node_table lists.new ≡ two_put (λ o kind e f. parallel_move o kind e) (node_table lists.old) k second e f }
{
    let node = lists[k].wide();
    put_node(lists, k + 1, node.entries, node.exits, node.internal);
    let entries = lowered(node.entries, k, 1, 1, 0, usize::from(e.entries));
    let exits = lowered(node.exits, k, 1, 1, 0, usize::from(e.exits));
    let behind = node.internal + usize::from(e.internals);
    put_node(lists, second, entries, exits, behind);
}

// "Loop: entries of E; internals of E, F, G, then exits(E)×exits(F)×entries(F)×entries(G); exits of G."
fn put_loop(
    lists: &mut [Node<u16>],
    k: usize,
    second: usize,
    third: usize,
    e: Counts,
    f: Counts,
    g: Counts,
)
    requires { k < length lists.old }
    ensures { node_table lists.new ≡ three_put (node_table lists.old) k second third e f g }
{
    let node = lists[k].wide();
    let e_exits = usize::from(e.exits);
    let f_exits = usize::from(f.exits);
    let f_entries = usize::from(f.entries);
    let g_entries = usize::from(g.entries);
    let before = e_exits * f_exits;
    let behind = f_entries * g_entries;
    let off = usize::from(e.internals) + usize::from(f.internals) + usize::from(g.internals);
    let internals = places_from(node.internal);
    let exits = lowered(internals, k, 1, f_exits * behind, 0, off);
    put_node(lists, k + 1, node.entries, exits, node.internal);
    let entries = lowered(internals, k, before, g_entries, behind, off);
    let exits = lowered(internals, k, e_exits, behind, f_exits * behind, off);
    let inner = node.internal + usize::from(e.internals);
    put_node(lists, second, entries, exits, inner);
    let entries = lowered(internals, k, before * f_entries, 1, g_entries, off);
    let last = inner + usize::from(f.internals);
    put_node(lists, third, entries, node.exits, last);
}

// The operands of node k, which is no action.
fn put_operands(
    rows: &[Row],
    counts: &[Counts],
    k: usize,
    tag: Result<Tag, Fault>,
    lists: &mut [Node<u16>],
)
    requires { k < length lists.old }
    ensures { node_table lists.new ≡ operands_put (table_numbers rows.now) (counts_numbers counts.now) k tag (node_table lists.old) }
{
    if let Ok(Tag::Scope) = tag {
        // Its places are those of its operand.
        let node = lists[k].wide();
        put_node(lists, k + 1, node.entries, node.exits, node.internal);
        return;
    }
    let second = after(rows, k + 1);
    let e = counts_at(counts, k + 1);
    let f = counts_at(counts, second);
    match tag {
        Ok(Tag::Sequence) => put_sequence(lists, k, second, e, f),
        Ok(Tag::Choice) => put_choice(lists, k, second, e, f),
        Ok(Tag::Loop) => {
            let third = after(rows, second);
            let g = counts_at(counts, third);
            put_loop(lists, k, second, third, e, f, g);
        }
        // No row of a plan has another tag.
        _ => put_parallel(lists, k, second, e, f),
    }
}

// What is told of the action that node k is, where the index reaches.
fn put_action(row: Row, k: usize, lists: &[Node<u16>], index: &mut [Told])
    requires { k ≤ 65535 }
    ensures { ActionPut row.first (node_table lists.now) k (told_table index.old) (told_table index.new) }
{
    let i = usize::from(row.first);
    let inputs = count_places(lists, k, Side::Inputs);
    let outputs = count_places(lists, k, Side::Outputs);
    if i < index.len() {
        index[i] = Told {
            // A table has at most 1,366 nodes.
            node: k as u16,
            inputs,
            outputs,
        };
    }
}

/// Where the places of every action stand, and how many they are: the lists of every node, and what is told of every action.
pub fn spread(rows: &[Row], counts: &[Counts], lists: &mut [Node<u16>], index: &mut [Told])
    requires { length rows.now ≤ 65535 }
    ensures { (E : Expr) → Of (table_numbers rows.now) (length rows.now) (counts_numbers counts.now) E → length rows.now ≤ length lists.old → actions E ≤ length index.old → (i : ℕ) → i < actions E → spec.Told (node_table lists.new) (told_table index.new) E i }
{
    if lists.len() < rows.len() {
        return;
    }
    put_root(counts, lists);
    for (k, row) in rows.iter().enumerate() {
        let tag = row.tag();
        match tag {
            Ok(Tag::Action) => put_action(*row, k, lists, index),
            _ => put_operands(rows, counts, k, tag, lists),
        }
    }
}
