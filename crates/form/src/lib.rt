// The form of a step field and of its items: 01, "Run records", and the refusals 21 to 24. A refusal here is its reason alone: what it
// carries, the step's offset, is known to the caller.
#![tactic(auto)]

ghost use Rattle.std.specs.Prelude.{◌≡◌, ℕ, ◌+◌, ◌≤◌, length, replicate, None, IfOk};
ghost use Rattle.form.specs.Form.{read_item, read_items, read_lent_step};
ghost use Rattle.form.specs.inner.FormSays.{says_at, header_read, header, item_read, items_in, ItemsFit, step_head};

use field::Fault;

/// First actions strictly rise and are bytes, so a step has no more items.
pub const MOST_ITEMS: usize = field::ACTION_LIMIT;

/// One action, or two, the a side first: 01, "Run records".
#[derive(Clone, Copy, Debug, Default, PartialEq, Eq)]
pub struct Item {
    pub first: u8,
    pub second: Option<u8>,
}

/// The item at the front of what is left of a body, and the bytes that it takes.
#[derive(Clone, Copy, Debug, PartialEq, Eq)]
pub struct ItemRead {
    pub item: Item,
    pub bytes: usize,
}

/// Room for each item of a step.
pub fn no_items() -> [Item; MOST_ITEMS]
    ensures { result ≡ replicate 256 (record { first = 0; second = None }) }
{
    [Item::default(); MOST_ITEMS]
}

// A field of a record: 01, "House form".
#[derive(Clone, Copy)]
struct Header<'a> {
    tag: u8,
    body: &'a [u8],
}

// The field at the front of the bytes: "21 is under 3 bytes left or a length beyond what encloses the field, and both stand before 22."
fn read_header(s: &[u8]) -> Result<Header<'_>, Fault>
    ensures says { (at : ℕ) → says_at at header_read result ≡ header at s.now }
    ensures fits { IfOk result (λ h. 3 + length h.body.now ≤ length s.now) }
{
    let [tag, high, low, left @ ..] = s else {
        return Err(Fault::RecordFieldCut);
    };
    let len = usize::from(u16::from_be_bytes([*high, *low]));
    if left.len() < len {
        return Err(Fault::RecordFieldCut);
    }
    Ok(Header {
        tag: *tag,
        body: &left[..len],
    })
}

/// The tests of one item, in 01's order. `s` is what is left of the step's body, and `least` the least first action that rises.
pub fn read_item(s: &[u8], least: usize) -> Result<ItemRead, Fault>
    ensures says { (at : ℕ) → says_at at item_read result ≡ read_item at least s.now }
    ensures fits { IfOk result (λ r. (least ≤ r.item.first) × (1 ≤ r.bytes) × (r.bytes ≤ length s.now)) }
{
    let field = read_header(s)?;
    // "21 hex with one action, or 22 hex with two, the a side first"
    let item = match (field.tag, field.body) {
        (0x21, &[first]) => Item {
            first,
            second: None,
        },
        (0x22, &[first, second]) => Item {
            first,
            second: Some(second),
        },
        (0x21 | 0x22, _) => return Err(Fault::WrongLength),
        _ => return Err(Fault::WrongTag),
    };
    if usize::from(item.first) < least {
        return Err(Fault::NotRising);
    }
    Ok(ItemRead {
        item,
        bytes: 3 + field.body.len(),
    })
}

/// The items of a step's body, left to right; how many there are. What `items` holds behind them, or on a refusal, is left open.
pub fn read_items(body: &[u8], items: &mut [Item; MOST_ITEMS]) -> Result<usize, Fault>
    ensures says { (at : ℕ) → says_at at (λ n. items_in n items.new) result ≡ read_items at 0 0 body.now }
    ensures fits { IfOk result (ItemsFit items.new) }
{
    let mut rest = body;
    let mut count = 0;
    let mut least = 0;
    // An item takes as many bytes as it says, so the loop goes by what is left of the body.
    while !rest.is_empty() {
        // 01, "Form by location": the item's answer is taken apart by let-else, and a refusal leaves early.
        let answer = read_item(rest, least);
        let Ok(ItemRead { item, bytes }) = answer else {
            return answer.and(Ok(count));
        };
        items[count] = item;
        count += 1;
        least = usize::from(item.first) + 1;
        rest = &rest[bytes..];
    }
    Ok(count)
}

/// The length of the body of the step field at the front of the bytes.
pub fn step_head(s: &[u8]) -> Result<usize, Fault>
    ensures says { (at : ℕ) → says_at at (λ n. n) result ≡ step_head at s.now }
    ensures fits { IfOk result (λ n. 3 + n ≤ length s.now) }
{
    let field = read_header(s)?;
    if field.tag != 0x20 {
        return Err(Fault::WrongTag);
    }
    if field.body.is_empty() {
        return Err(Fault::WrongLength);
    }
    Ok(field.body.len())
}

/// The one step field that firing is lent: bytes behind it are refused before its items are read. How many items it has.
pub fn read_lent_step(s: &[u8], items: &mut [Item; MOST_ITEMS]) -> Result<usize, Fault>
    ensures says { says_at 0 (λ n. items_in n items.new) result ≡ read_lent_step s.now }
    ensures fits { IfOk result (ItemsFit items.new) }
{
    let len = step_head(s)?;
    if len != s.len() - 3 {
        return Err(Fault::WrongLength);
    }
    read_items(&s[3..], items)
}
