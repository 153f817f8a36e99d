// The grammars of the workloads, by number.
use super::draw::drawn;
use grammar::kind::Kind;

pub const MOST_TABLE_WORDS: usize = 768;

pub const MOST_POOL_WORDS: usize = 4096;

const MOST_NODES: usize = 256;

// A list over a node takes so many nodes more.
const LIST_NODES: usize = 5;

const MOST_LISTS: usize = 51;

// Numbers asked for are below this, where the size is endless.
const LARGEST: u64 = 4611686018427387904;

// How much of the lent words a grammar takes, where its cases start and below which number they are asked for.
#[derive(Clone, Copy, Debug, PartialEq, Eq)]
pub struct Shape {
    pub nodes: usize,
    pub words: usize,
    pub start: usize,
    pub limit: u64,
}

impl Shape {
    // A table without pool, asked for any number.
    fn endless(nodes: usize, start: usize) -> Shape {
        Shape {
            nodes,
            words: 0,
            start,
            limit: LARGEST,
        }
    }

    // The same grammar at number 0: all its cells are 0, so that each takes the same work.
    fn at_zero(self) -> Shape {
        Shape { limit: 1, ..self }
    }
}

// The words that a grammar is laid into.
#[derive(Drop)]
pub struct Words<'a> {
    pub table: &'a mut [u64],
    pub pool: &'a mut [u64],
}

impl<'a> Words<'a> {
    fn put(&mut self, node: usize, kind: Kind, a: usize, b: usize) {
        if node < self.table.len() / 3 {
            self.table[3 * node] = kind as u64;
            self.table[3 * node + 1] = a as u64;
            self.table[3 * node + 2] = b as u64;
        }
    }

    // 01's L.
    fn numbers_list(&mut self) -> Shape {
        self.put(0, Kind::Below, 1, 0);
        self.put(1, Kind::Nats, 0, 0);
        self.put(2, Kind::Again, 5, 0);
        self.put(3, Kind::Cons, 1, 2);
        self.put(4, Kind::Or, 0, 3);
        self.put(5, Kind::Fix, 4, 0);
        Shape::endless(6, 5)
    }

    fn put_pairs(&mut self, levels: usize) {
        self.put(0, Kind::Nats, 0, 0);
        for i in 0..levels {
            self.put(i + 1, Kind::Cons, i, i);
        }
    }

    // Pairs of pairs of pairs: node i has 2^i nats.
    fn pairs(&mut self, levels: usize) -> Shape {
        if MOST_NODES <= levels {
            return Shape::endless(0, 0);
        }
        self.put_pairs(levels);
        Shape::endless(levels + 1, levels)
    }

    // 32,768 + 16,384 + 8,192 + 2,048 nats.
    fn wide(&mut self) -> Shape {
        self.put_pairs(15);
        self.put(16, Kind::Cons, 13, 11);
        self.put(17, Kind::Cons, 14, 16);
        self.put(18, Kind::Cons, 15, 17);
        Shape::endless(19, 18)
    }

    // 256 seconds of four sizes.
    fn seconds(&mut self) -> Shape {
        self.put(0, Kind::Below, 256, 0);
        self.put(1, Kind::Below, 3, 0);
        self.put(2, Kind::Below, 1000, 0);
        self.put(3, Kind::Below, 1048576, 0);
        self.put(4, Kind::Below, 7, 0);
        self.put(5, Kind::Dep, 0, 0);
        for (i, word) in self.pool.iter_mut().take(256).enumerate() {
            *word = 1 + i as u64 % 4;
        }
        Shape {
            nodes: 6,
            words: 256,
            start: 5,
            limit: 67173504,
        }
    }

    // Pairs of pairs of words of a pool, 2^48 in all.
    fn words_of(&mut self, count: usize, levels: usize) -> Shape {
        if MOST_NODES <= levels {
            return Shape::endless(0, 0);
        }
        self.put_pairs(levels);
        self.put(0, Kind::Pool, 0, count);
        for (i, word) in self.pool.iter_mut().take(count).enumerate() {
            *word = drawn(i as u64);
        }
        Shape {
            nodes: levels + 1,
            words: count,
            start: levels,
            limit: 281474976710656,
        }
    }

    // Six nodes and no recursion.
    fn plain(&mut self) -> Shape {
        self.put(0, Kind::Below, 10, 0);
        self.put(1, Kind::Nats, 0, 0);
        self.put(2, Kind::Shift, 1, 5);
        self.put(3, Kind::Or, 0, 2);
        self.put(4, Kind::Cons, 0, 3);
        self.put(5, Kind::Cons, 4, 1);
        Shape::endless(6, 5)
    }

    // The lists over the node before `base`, in the nodes from there on.
    fn put_list(&mut self, base: usize) {
        if base < 1 || MOST_NODES - LIST_NODES < base {
            return;
        }
        self.put(base, Kind::Below, 1, 0);
        self.put(base + 1, Kind::Again, base + 4, 0);
        self.put(base + 2, Kind::Cons, base - 1, base + 1);
        self.put(base + 3, Kind::Or, base, base + 2);
        self.put(base + 4, Kind::Fix, base + 3, 0);
    }

    // Lists of lists of lists.
    fn lists(&mut self, levels: usize) -> Shape {
        if MOST_LISTS < levels {
            return Shape::endless(0, 0);
        }
        self.put(0, Kind::Nats, 0, 0);
        for i in 0..levels {
            self.put_list(LIST_NODES * i + 1);
        }
        Shape::endless(LIST_NODES * levels + 1, LIST_NODES * levels)
    }

    // 127 agains, each leading to the next by its fix: the longest search for cycles.
    fn agains(&mut self) -> Shape {
        self.put(0, Kind::Nats, 0, 0);
        for i in 0..127 {
            self.put(i + 1, Kind::Again, i + 128, 0);
            self.put(i + 128, Kind::Fix, i + 2, 0);
        }
        self.put(254, Kind::Fix, 0, 0);
        Shape::endless(255, 254)
    }

    pub fn lay(&mut self, number: u64) -> Shape {
        match number {
            1 => self.pairs(6),
            2 => self.pairs(7),
            3 => self.pairs(10),
            4 => self.pairs(13),
            5 => self.wide(),
            6 => self.seconds(),
            7 => self.words_of(64, 3),
            8 => self.words_of(4096, 2),
            9 => self.plain(),
            10 => self.lists(1),
            11 => self.lists(3),
            12 => self.lists(12),
            13 => self.lists(25),
            14 => self.lists(51),
            15 => self.agains(),
            16 => self.pairs(7).at_zero(),
            17 => self.pairs(10).at_zero(),
            18 => self.pairs(13).at_zero(),
            19 => self.wide().at_zero(),
            _ => self.numbers_list(),
        }
    }
}
