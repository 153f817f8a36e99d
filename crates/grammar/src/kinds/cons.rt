// 5 cons | nodes | both lower (4); size (8) | product
ghost use Rattle.std.specs.Prelude.{◌≡◌, List, ℕ, ◌+◌, ◌*◌, ◌<◌, ◌≤◌, length, get_or};
ghost use Rattle.numbers.specs.Joined.{capped};
ghost use Rattle.numbers.specs.Cons;
ghost use Rattle.grammar.specs.Nodes.{node_with};
ghost use Rattle.grammar.specs.kinds.Cons.{cons, cons_rule};
ghost use Rattle.grammar.specs.Plan.{size_in, size_word, weighed};
ghost use Rattle.grammar.specs.Shown.{ShowsTwo};

use super::super::entry::Entry;
use super::super::refusal::Refusal;
use super::{Two, asks};
use numbers::size;

#[tactic(auto, unfolding(crate::proofs::Tests::rows))]
pub fn check(plan: &[Entry], n: usize, a: usize, b: usize) -> Result<u64, Refusal>
    requires { n ≤ length plan.now }
    ensures { (t p : List ℕ) → result ≡ weighed cons (node_with t p n a b) (size_in plan.now) }
{
    asks(a < n, Refusal::Reference)?;
    asks(b < n, Refusal::Reference)?;
    // (8) is given "when a finite size passes 2^62".
    size::product(plan[a].size, plan[b].size).ok_or(Refusal::TooLarge)
}

// A visit at n: both parts, at the numbers that n is made of, by the parts' sizes.
pub fn step(plan: &[Entry], a: usize, b: usize, n: u64) -> Two
    requires a_in_bounds { (a < length plan.now) × (b < length plan.now) }
    requires nonzero { (0 < size_word plan.now a) × (0 < size_word plan.now b) }
    ensures { ShowsTwo ((cons_rule (size_in plan.now a) (size_in plan.now b) a b).items n) result }
{
    let q = numbers::cons::split(plan[a].size, plan[b].size, n);
    Two {
        first: a,
        x: q.first,
        second: b,
        y: q.second,
    }
}

// The number of a cons's case: x and y are its parts' numbers.
pub fn join(plan: &[Entry], a: usize, b: usize, x: u64, y: u64) -> Option<u64>
    requires { (a < length plan.now) × (b < length plan.now) }
    ensures { result ≡ capped (Cons.join (size_in plan.now a) (size_in plan.now b) x y) }
{
    numbers::cons::join(plan[a].size, plan[b].size, x, y)
}
