// 8 fix | body | b zero (3); a lower (4); body endless (7) | endless
ghost use Rattle.std.specs.Prelude.{◌≡◌, List, ℕ, ◌+◌, ◌*◌, ◌≤◌, length};
ghost use Rattle.grammar.specs.Nodes.{node_with};
ghost use Rattle.grammar.specs.kinds.Fix.{fix};
ghost use Rattle.grammar.specs.Plan.{size_in, weighed};

use super::super::entry::Entry;
use super::super::refusal::Refusal;
use super::asks;
use numbers::size::ENDLESS;

#[tactic(auto, using(crate::proofs::Tests::size_tests), unfolding(crate::proofs::Tests::rows, crate::specs::kinds::Fix::pass_rule))]
pub fn check(plan: &[Entry], n: usize, a: usize) -> Result<u64, Refusal>
    requires { n ≤ length plan.now }
    ensures { (t p : List ℕ) (b : ℕ) → result ≡ weighed fix (node_with t p n a b) (size_in plan.now) }
{
    asks(a < n, Refusal::Reference)?;
    asks(ENDLESS <= plan[a].size, Refusal::UnsuitedPart)?;
    Ok(ENDLESS)
}
