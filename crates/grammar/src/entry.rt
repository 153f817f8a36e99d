// A node as the walks use it, weighed.
ghost use Rattle.std.specs.Prelude.{◌≡◌};

use super::kind::Kind;

// A node's kind, its words a and b, and the word of its size.
#[derive(Clone, Copy, Debug, PartialEq, Eq)]
pub struct Entry {
    pub kind: Kind,
    pub a: usize,
    pub b: u64,
    pub size: u64,
}

impl Entry {
    // Field by field. As a whole an entry is stored with the bytes between its fields, and the check of a small table
    // took 1.3 times as long.
    pub fn put(&mut self, entry: Entry)
        ensures { self.new ≡ entry }
    {
        self.kind = entry.kind;
        self.a = entry.a;
        self.b = entry.b;
        self.size = entry.size;
    }
}

// What stands in a plan where no node is.
pub const BLANK: Entry = Entry {
    kind: Kind::Below,
    a: 0,
    b: 0,
    size: 0,
};
