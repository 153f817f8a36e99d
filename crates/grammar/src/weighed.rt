// A checked table, as cycles are looked for in it.
ghost use Rattle.std.specs.Prelude.{◌≡◌, ◌<◌, eqb};
ghost use Rattle.grammar.specs.Table.{kind_of, nodes};
ghost use Rattle.grammar.specs.Plan.{Ready};

use super::entry::Entry;
use super::kind::Kind;
use std::marker::Model;

// The table, its pool, and a plan that has the sizes: of the plan nothing else is asked. The pool has a lifetime of its
// own, since what a node names is read from it. It is cloned and not copied: a model with a lifetime has no `Copy` yet.
#[derive(Clone, Drop)]
pub struct Weighed<'a, 'b> {
    pub table: &'a [u64],
    pub pool: &'b [u64],
    pub plan: &'a [Entry],
}

impl<'a, 'b> Model for Weighed<'a, 'b> {
    ghost use Rattle.grammar.specs.Plan.{Ready};
    ghost use Rattle.grammar.specs.Sized.{Sized};

    ghost Value = { Sized };

    ghost view = { λ w. record { table = w.table.now; pool = w.pool.now; plan = w.plan.now } };

    ghost invariant = { λ w. Ready w.table.now w.pool.now w.plan.now };
}

impl<'a, 'b> Weighed<'a, 'b> {
    // The table is checked. It does nothing: whoever uses no field sees the value alone, and is told by it.
    pub fn checked(&self)
        ensures { Ready self.now.table self.now.pool self.now.plan }
    {
        let _ = &self.plan;
    }

    // How many nodes there are. Whoever counts them is told that the table is checked, too.
    pub fn count(&self) -> usize
        ensures count { result ≡ nodes self.now.table }
        ensures ready { Ready self.now.table self.now.pool self.now.plan }
    {
        self.table.len() / 3
    }

    // Whether a node is an again: the lowest node of any cycle is one.
    pub fn is_again(&self, n: usize) -> bool
        requires { n < nodes self.now.table }
        ensures { result ≡ eqb (kind_of self.now.table n) 9 }
    {
        let table = self.table;
        table[3 * n] == Kind::Again as u64
    }
}
