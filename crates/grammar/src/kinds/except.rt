// 7 except | node, number | a lower (4); size of a not 1 (7); b below that size and below 2^62 (5) | one less
ghost use Rattle.std.specs.Prelude.{◌≡◌, List, ℕ, ◌+◌, ◌*◌, ◌≤◌, length};
ghost use Rattle.numbers.specs.Except;
ghost use Rattle.numbers.specs.Joined.{capped};
ghost use Rattle.grammar.specs.Nodes.{node_with};
ghost use Rattle.grammar.specs.kinds.Except.{except};
ghost use Rattle.grammar.specs.Plan.{size_in, weighed};

use super::super::entry::Entry;
use super::super::refusal::Refusal;
use super::asks;
use numbers::size;
use numbers::size::LARGEST;

#[tactic(auto, using(crate::proofs::Tests::size_tests), unfolding(crate::proofs::Tests::rows, crate::specs::kinds::Except::except_rule))]
pub fn check(plan: &[Entry], n: usize, a: usize, b: u64) -> Result<u64, Refusal>
    requires { n ≤ length plan.now }
    ensures { (t p : List ℕ) → result ≡ weighed except (node_with t p n a b) (size_in plan.now) }
{
    asks(a < n, Refusal::Reference)?;
    let s = plan[a].size;
    asks(s != 1, Refusal::UnsuitedPart)?;
    asks(b < s, Refusal::Range)?;
    asks(b < LARGEST, Refusal::Range)?;
    Ok(size::one_less(s))
}

// The number of an except's case: m is the part's, and not the removed one.
pub fn join(b: u64, m: u64) -> Option<u64>
    requires { m ≡ b → ⊥ }
    ensures { result ≡ capped (Except.join b m) }
{
    numbers::except::join(b, m)
}
