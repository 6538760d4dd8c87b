// Plans of many actions. A part of n actions and s scopes takes 4 bytes for each action, 3 for each of its n - 1 operators and 4 for each
// scope: 7n - 3 + 4s.
ghost use Rattle.std.specs.Prelude.{◌≤◌, ◌<◌};

use plan::table::Tag;

const ROOM: usize = 8192;

/// The bytes of a plan, written from the front.
#[derive(Drop)]
pub struct Plan {
    bytes: [u8; ROOM],
    len: usize,
    ghost within: { len ≤ 8192 },
}

impl Plan {
    pub fn new() -> Self {
        Plan {
            bytes: [0; ROOM],
            len: 0,
        }
    }

    pub fn bytes(&self) -> &[u8] {
        &self.bytes[..self.len]
    }

    fn put(&mut self, byte: u8) {
        let at = self.len;
        if at < ROOM {
            self.bytes[at] = byte;
            self.len = at + 1;
        }
    }

    fn header(&mut self, tag: Tag, length: usize)
        requires { length < 65536 }
    {
        let [high, low] = (length as u16).to_be_bytes();
        self.put(tag as u8);
        self.put(high);
        self.put(low);
    }

    /// The header of an operator over two parts that have n actions and so many scopes together.
    pub fn operator(&mut self, tag: Tag, n: usize, scopes: usize)
        requires { (2 ≤ n) × (n ≤ 1000) × (scopes ≤ 1000) }
    {
        self.header(tag, 7 * n - 6 + 4 * scopes);
    }

    /// The header and the name of a scope over a part that has n actions and so many scopes.
    pub fn scope(&mut self, name: u8, n: usize, scopes: usize)
        requires { (1 ≤ n) × (n ≤ 1000) × (scopes ≤ 1000) }
    {
        self.header(Tag::Scope, 7 * n - 3 + 4 * scopes + 1);
        self.put(name);
    }

    fn action(&mut self, label: u8) {
        self.header(Tag::Action, 1);
        self.put(label);
    }

    // n actions of one label under one operator, each beside the rest: depth n.
    fn row(&mut self, tag: Tag, label: u8, n: usize)
        requires { n ≤ 1000 }
    {
        for left in (2..n + 1).rev() {
            self.operator(tag, left, 0);
            self.action(label);
        }
        self.action(label);
    }

    /// n actions of one label under one operator, in rows of 16, so that the depth stays within the limit.
    pub fn wide(&mut self, tag: Tag, label: u8, n: usize)
        requires { n ≤ 1000 }
    {
        if n <= 16 {
            self.row(tag, label, n);
        } else {
            self.operator(tag, n, 0);
            self.row(tag, label, 16);
            self.wide(tag, label, n - 16);
        }
    }

    /// m actions a beside n actions a', under the scope of a.
    pub fn pairs(&mut self, m: usize, n: usize)
        requires { (1 ≤ m) × (m ≤ 100) × (1 ≤ n) × (n ≤ 100) }
    {
        self.scope(1, m + n, 0);
        self.operator(Tag::Parallel, m + n, 0);
        self.wide(Tag::Parallel, 1, m);
        self.wide(Tag::Parallel, 129, n);
    }

    /// An action under so many scopes, one in the other.
    pub fn scopes(&mut self, n: usize)
        requires { n ≤ 1000 }
    {
        for left in (0..n).rev() {
            self.scope(2, 1, left);
        }
        self.action(1);
    }
}
