// The public calls on one case. No call relies on an earlier check: each checks its table first.
#![tactic(auto)]

mod reading;
mod writing;

ghost use Rattle.std.specs.Prelude.{◌≡◌};
ghost use Rattle.grammar.specs.Verdict.{answer, check_says};

use checked::prepared::{prepare, with_plan};
pub use grammar::refusal::{Refusal, Refused, number_of};
pub use reading::read;
pub use writing::write;

// Table and pool are two slices, as the promises name them.
//
// Whether a table is a grammar: Ok, or the refusal and its node.
pub fn check(table: &[u64], pool: &[u64]) -> Result<(), Refused>
    ensures { answer result ≡ check_says table.now pool.now }
{
    with_plan(table, &mut [], |plan, _| prepare(table, pool, plan))
}
