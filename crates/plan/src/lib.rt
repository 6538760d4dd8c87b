// Reads the bytes of a plan into a table of nodes, a row for each field.
#![tactic(auto)]

pub mod exclusive;
pub mod table;

ghost use Rattle.std.specs.Prelude.{ℕ, ◌≡◌, ◌+◌, ◌*◌, ◌≤◌, length};
ghost use Rattle.field.specs.Limits.{plan_limit};
ghost use Rattle.field.specs.Field.{length_of, body_of};
ghost use Rattle.field.specs.Says.{says};
ghost use Rattle.plan.specs.Reading.{action_tag, scope_tag, read_body, read_operands, read_field, read_plan};
ghost use Rattle.plan.specs.inner.Numbers.{table_numbers};
ghost use Rattle.plan.specs.inner.Says.{sizes_told, read_sizes, RowsAre};
ghost use Rattle.plan.specs.inner.Fields.{HeadFits, HeadIs, Inside, field_with, FieldFits, FieldIs, OperandsFit, OperandsAre, Room};

use crate::table::{Row, Tag};
use field::{Fault, Refusal};

/// A node takes 3 bytes at least, so a plan has at most 1,365 of them.
pub const NODES: usize = field::PLAN_LIMIT / 3 + 1;

/// How many nodes and actions a plan has.
#[derive(Clone, Copy, Debug, PartialEq, Eq)]
pub struct Sizes {
    pub nodes: usize,
    pub actions: usize,
}

/// What a field is by the tests that ask for no operand.
#[derive(Clone, Copy)]
enum Head {
    /// An action with its label.
    Action(u8),
    /// Its own byte is 0 if it has none. So many operands are due, in the part of the field from `start` on that is `len` bytes long.
    Operator {
        tag: Tag,
        byte: u8,
        members: u16,
        start: usize,
        len: usize,
    },
}

/// What is read of one field: the bytes that it takes, and the nodes and actions so far.
#[derive(Clone, Copy)]
struct FieldRead {
    used: usize,
    so_far: Sizes,
}

/// An action's own tests: its body is one byte, the byte is a label, and there is room for one more action.
fn look_action(s: &[u8], len: usize, actions: usize) -> Result<Head, Fault>
    requires { Inside s.now len }
    ensures fits { HeadFits result (length s.now) actions }
    ensures is { (at : ℕ) → HeadIs result s.now at actions (λ read. read_body read action_tag (body_of s.now) at (3 + length_of s.now) actions) }
{
    if len != 1 {
        return Err(Fault::WrongBody);
    }
    let label = s[3];
    if label == 128 {
        return Err(Fault::WrongLabel);
    }
    if field::ACTION_LIMIT <= actions {
        return Err(Fault::TooManyActions);
    }
    Ok(Head::Action(label))
}

/// A scope's own tests: its body begins with a byte, and the byte is a name.
fn look_scope(s: &[u8], len: usize) -> Result<Head, Fault>
    requires { Inside s.now len }
    ensures fits { (actions : ℕ) → HeadFits result (length s.now) actions }
    ensures is { (at actions : ℕ) → HeadIs result s.now at actions (λ read. read_body read scope_tag (body_of s.now) at (3 + length_of s.now) actions) }
{
    if len == 0 {
        return Err(Fault::WrongBody);
    }
    let name = s[3];
    if name == 0 || 127 < name {
        return Err(Fault::WrongLabel);
    }
    Ok(Head::Operator {
        tag: Tag::Scope,
        byte: name,
        members: 1,
        start: 4,
        len: len - 1,
    })
}

/// The tests of one field that ask for no operand, in 01's order. `s` is what is left of the enclosing body, so that a length beyond
/// that body is refused even where the plan goes on.
fn look(s: &[u8], actions: usize) -> Result<Head, Fault>
    ensures fits { HeadFits result (length s.now) actions }
    ensures is { (at : ℕ) → HeadIs result s.now at actions (λ read. field_with read s.now at actions) }
{
    if s.len() < 3 {
        return Err(Fault::FieldCut);
    }
    let tag = Tag::try_from(u16::from(s[0]))?;
    let len = usize::from(u16::from_be_bytes([s[1], s[2]]));
    if s.len() - 3 < len {
        return Err(Fault::FieldCut);
    }
    let members = match tag {
        Tag::Action => return look_action(s, len, actions),
        Tag::Scope => return look_scope(s, len),
        Tag::Sequence | Tag::Choice | Tag::Parallel => 2,
        Tag::Loop => 3,
    };
    Ok(Head::Operator {
        tag,
        byte: 0,
        members,
        start: 3,
        len,
    })
}

/// One field at the front of `s`, which is what is left of its enclosing body and stands at `at` in the plan. `levels` more levels may
/// be opened, this one among them.
#[cycle(read_field_read_operands)]
fn read_field(
    s: &[u8],
    at: usize,
    levels: usize,
    so_far: Sizes,
    rows: &mut [Row],
) -> Result<FieldRead, Refusal>
    requires { Room (length s.now) (length rows.old) at so_far.nodes so_far.actions }
    ensures fits { FieldFits result (length s.now) so_far.nodes }
    ensures is { FieldIs (read_field levels s.now at so_far.actions) result so_far.nodes so_far.actions at (table_numbers rows.old) (table_numbers rows.new) }
{
    if levels == 0 {
        return Err(Fault::TooDeep.at(at));
    }
    let head = match look(s, so_far.actions) {
        Ok(head) => head,
        Err(fault) => return Err(fault.at(at)),
    };
    let below = Sizes {
        nodes: so_far.nodes + 1,
        actions: so_far.actions,
    };
    let (tag, byte, members, used, read) = match head {
        Head::Action(label) => {
            let read = Sizes {
                nodes: below.nodes,
                actions: so_far.actions + 1,
            };
            (Tag::Action, label, 0, 4, read)
        }
        Head::Operator {
            tag,
            byte,
            members,
            start,
            len,
        } => {
            let end = start + len;
            let read = read_operands(&s[start..end], at + start, levels - 1, below, members, rows)?;
            (tag, byte, members, end, read)
        }
    };
    // Only now is the node after the subtree known. Each number fits 16 bits, as a plan is short; `as` is proved to lose nothing.
    rows[so_far.nodes] = Row {
        tag: tag as u16,
        byte: u16::from(byte),
        members,
        after: read.nodes as u16,
        first: so_far.actions as u16,
        at: at as u16,
    };
    Ok(FieldRead { used, so_far: read })
}

/// So many operands, and no byte after the last. `s` is what is left of the enclosing body: nothing else can be read from here. A loop, since
/// a call for each operand would cost more than most operands.
#[cycle(read_field_read_operands)]
fn read_operands(
    s: &[u8],
    at: usize,
    levels: usize,
    so_far: Sizes,
    members: u16,
    rows: &mut [Row],
) -> Result<Sizes, Refusal>
    requires { Room (length s.now) (length rows.old) at so_far.nodes so_far.actions }
    ensures fits { OperandsFit result (length s.now) so_far.nodes }
    ensures are { OperandsAre members (read_operands (read_field levels) members s.now at so_far.actions) result so_far.nodes so_far.actions at (table_numbers rows.old) (table_numbers rows.new) }
{
    let mut from = 0;
    let mut read = so_far;
    for _ in 0..members {
        if from == s.len() {
            return Err(Fault::OperandDue.at(at + from));
        }
        let field = read_field(&s[from..], at + from, levels, read, rows)?;
        from += field.used;
        read = field.so_far;
    }
    if from < s.len() {
        return Err(Fault::BytesAfter.at(at + from));
    }
    Ok(read)
}

/// A whole plan: one field, and nothing after it. The rows of its nodes are written from the front, and no other. A node takes 3 bytes at
/// least, so a row for every three bytes of a plan is room enough.
pub fn read_plan_in(plan: &[u8], rows: &mut [Row]) -> Result<Sizes, Refusal>
    requires { length plan.now ≤ plan_limit → length plan.now ≤ 3 * length rows.old + 2 }
    ensures answer { says sizes_told result ≡ read_sizes plan.now }
    ensures rows { RowsAre (read_plan plan.now) (table_numbers rows.old) (table_numbers rows.new) }
{
    if field::PLAN_LIMIT < plan.len() {
        return Err(Fault::PlanTooLong.at(0));
    }
    let none = Sizes {
        nodes: 0,
        actions: 0,
    };
    read_operands(plan, 0, field::DEPTH_LIMIT, none, 1, rows)
}
