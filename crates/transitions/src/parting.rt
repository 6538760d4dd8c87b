// 01, "Box construction": two actions of a field "part at a parallel field" where the lowest field that holds both is a parallel.
ghost use Rattle.std.specs.Prelude.{◌≡◌, ◌≤◌, ◌<◌, ◌*◌, length};
ghost use Rattle.plan.specs.inner.Numbers.{table_numbers};
ghost use Rattle.transitions.specs.inner.Parting.{operand_by, SameOperand, Parts};

use plan::table::{Row, Tag, after, first, row_at};

/// The actions from one number to before another: all part from an action at a parallel field, or none does. Those of one operand part
/// alike from an action of another, so one walk down the table tells of a run of them. By default nothing is told of any action.
#[derive(Clone, Copy, Debug, Default, PartialEq, Eq)]
pub struct Parting {
    pub from: usize,
    pub until: usize,
    pub apart: bool,
}

// More than the number of any action.
const ALL: usize = 65536;

// The number of the operand of node k that holds action i; of a node with no operand its own number. No tag is told apart first: in one match
// with the tags the proof would not know that there is none.
fn operand_of(rows: &[Row], k: usize, i: usize) -> usize
    requires { (k ≤ 65535) × (length rows.now ≤ 1366) }
    ensures operand { result ≡ operand_by (table_numbers rows.now) k i }
    ensures fits { result ≤ 65535 }
{
    let Ok(tag) = row_at(rows, k).tag() else {
        // Past the table every number is 0, which is no tag.
        return k;
    };
    match tag {
        Tag::Action => k,
        Tag::Scope => k + 1,
        Tag::Loop => {
            let second = after(rows, k + 1);
            if i < first(rows, second) {
                return k + 1;
            }
            let third = after(rows, second);
            if i < first(rows, third) {
                second
            } else {
                third
            }
        }
        Tag::Sequence | Tag::Choice | Tag::Parallel => {
            let second = after(rows, k + 1);
            if i < first(rows, second) {
                k + 1
            } else {
                second
            }
        }
    }
}

// A number before which the actions from j on stand in the same operand of node k as j.
fn operand_end(rows: &[Row], k: usize, j: usize) -> usize
    requires { (k ≤ 65535) × (j ≤ 65535) }
    ensures behind { j < result }
    ensures same { SameOperand (table_numbers rows.now) k j result }
{
    let second = after(rows, k + 1);
    let begin = first(rows, second);
    if j < begin {
        return begin;
    }
    let last = first(rows, after(rows, second));
    if j < last { last } else { ALL }
}

// How the actions of node k from j on part from action i, as many as the walk tells of, and no further than `until`. While i and j stand
// in one operand the walk goes on there.
fn part_from(rows: &[Row], k: usize, i: usize, j: usize, until: usize) -> Parting
    requires { (k ≤ 65535) × (length rows.now ≤ 1366) × (j < until) × (j ≤ 65535) }
    ensures { (result.from ≡ j) × (j < result.until) × (result.until ≤ until) × Parts (table_numbers rows.now) k i result }
{
    let next = operand_of(rows, k, i);
    // An action has no operand: the two are one. As every turn goes to a higher number, the walk ends on any rows.
    if next <= k {
        return Parting {
            from: j,
            until,
            apart: false,
        };
    }
    let end = until.min(operand_end(rows, k, j));
    if operand_of(rows, k, j) == next {
        return part_from(rows, next, i, j, end);
    }
    Parting {
        from: j,
        until: end,
        apart: row_at(rows, k).tag() == Ok(Tag::Parallel),
    }
}

/// How actions part from action i of node k, j among them: as the last answer told, where it tells of j.
pub fn part_at(rows: &[Row], k: usize, i: usize, j: usize, last: Parting) -> Parting
    requires { (k ≤ 65535) × (length rows.now ≤ 1366) × (j ≤ 65535) × Parts (table_numbers rows.now) k i last }
    ensures { (result.from ≤ j) × (j < result.until) × Parts (table_numbers rows.now) k i result }
{
    if (last.from..last.until).contains(&j) {
        return last;
    }
    part_from(rows, k, i, j, ALL)
}
