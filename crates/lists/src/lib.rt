// Where the lists of each node stand in the whole net: those of its entries and of its exits, and the number of its first internal place.
// Nothing here is larger than the number of places, which 11 has judged before; a list is kept to 16 bits where it is stored, not before.
#![tactic(auto)]

pub mod placing;

ghost use Rattle.std.specs.Prelude.{◌≡◌, ◌%◌};
ghost use Rattle.lists.specs.inner.Lists.{Short, ShortNode, Modest, one_list, lower_by, cut, node_put};
ghost use Rattle.lists.specs.inner.Numbers.{list_on, node_table};

use net::Side;

/// One list of a node: position p is `width` numbers from base + p * width on; and these `times` times, each time `step` more, and then as
/// the list of node `up` on the same side. With 0 times they are all.
#[derive(Clone, Copy, Debug, Default, PartialEq, Eq)]
pub struct List<N> {
    pub base: N,
    pub width: N,
    pub times: N,
    pub step: N,
    pub up: N,
}

impl List<u16> {
    fn wide(self) -> List<usize>
        ensures same { result ≡ self }
        ensures short { Short result }
    {
        List {
            base: usize::from(self.base),
            width: usize::from(self.width),
            times: usize::from(self.times),
            step: usize::from(self.step),
            up: usize::from(self.up),
        }
    }
}

impl List<usize> {
    /// As the table keeps it: each number in 16 bits.
    fn cut(self) -> List<u16>
        ensures { result ≡ cut self }
    {
        List {
            base: short(self.base),
            width: short(self.width),
            times: short(self.times),
            step: short(self.step),
            up: short(self.up),
        }
    }
}

/// The three lists of a node; its internal places stand one after another.
#[derive(Clone, Copy, Debug, Default, PartialEq, Eq)]
pub struct Node<N> {
    pub entries: List<N>,
    pub exits: List<N>,
    /// The number of its first internal place.
    pub internal: N,
}

impl Node<u16> {
    /// The same lists, with room for numbers that have more bits.
    pub fn wide(self) -> Node<usize>
        ensures same { result ≡ self }
        ensures short { ShortNode result }
    {
        Node {
            entries: self.entries.wide(),
            exits: self.exits.wide(),
            internal: usize::from(self.internal),
        }
    }

    /// The list that an action's places on a side are told by: its inputs are its entries, its outputs its exits.
    pub fn on(self, side: Side) -> List<u16>
        ensures { result ≡ list_on side self }
    {
        match side {
            Side::Inputs => self.entries,
            Side::Outputs => self.exits,
        }
    }
}

/// A number in 16 bits. A plan's numbers all fit; on rows that are no plan's they may not, and the function must not fail there.
pub fn short(number: usize) -> u16
    ensures { result ≡ number % 65536 }
{
    (number % 65536) as u16
}

/// Places that stand one after another from a number on.
pub fn places_from(base: usize) -> List<usize>
    ensures { result ≡ one_list base 1 0 0 0 }
{
    List {
        base,
        width: 1,
        times: 0,
        step: 0,
        up: 0,
    }
}

/// "The number of a product place": an operand's list that stands from position `off` on in a list of node k, with `left` places before it and
/// `right` behind in the product; each time that it is copied it stands `step` places further on. The factors behind it make it wider, those
/// before it copy it; a factor of one place copies nothing, and where the node's list is not copied there is nothing to go on with.
// Four numbers in a row and no struct of them: a literal of it would be laid out over six lines at each of the twelve calls.
pub fn lowered(
    list: List<usize>,
    k: usize,
    left: usize,
    right: usize,
    step: usize,
    off: usize,
) -> List<usize>
    requires { Short list × Modest left right step off }
    ensures { result ≡ lower_by left right step off k list }
{
    let base = list.base + off * list.width;
    let width = right * list.width;
    if left == 1 {
        return List {
            base,
            width,
            ..list
        };
    }
    let up = if list.times == 0 { 0 } else { k };
    List {
        base,
        width,
        times: left,
        step: step * list.width,
        up,
    }
}

/// The lists of node c, where the table reaches. Here each number is kept to 16 bits.
pub fn put_node(
    lists: &mut [Node<u16>],
    c: usize,
    entries: List<usize>,
    exits: List<usize>,
    internal: usize,
)
    ensures { node_table lists.new ≡ node_put (node_table lists.old) c entries exits internal }
{
    if c < lists.len() {
        lists[c] = Node {
            entries: entries.cut(),
            exits: exits.cut(),
            internal: short(internal),
        };
    }
}
