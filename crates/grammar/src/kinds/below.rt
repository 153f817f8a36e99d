// 0 below | count | b zero (3); 1 <= a <= 2^62 (5) | a
ghost use Rattle.std.specs.Prelude.{◌≡◌, List, ℕ};
ghost use Rattle.numbers.specs.Size.{Size};
ghost use Rattle.grammar.specs.Nodes.{node_with};
ghost use Rattle.grammar.specs.kinds.Below.{below};
ghost use Rattle.grammar.specs.Plan.{weighed};
ghost use Rattle.grammar.specs.Placed.{counted};

use super::super::refusal::Refusal;
use super::asks;
use numbers::size::LARGEST;

#[tactic(auto, unfolding(crate::proofs::Tests::rows, crate::specs::kinds::Below::below_rule))]
pub fn check(a: u64) -> Result<u64, Refusal>
    ensures { (t p : List ℕ) (n b : ℕ) (z : ℕ → Size) → result ≡ weighed below (node_with t p n a b) z }
{
    asks(1 <= a, Refusal::Range)?;
    asks(a <= LARGEST, Refusal::Range)?;
    Ok(a)
}

// 15: "a number cell not below its count"
pub fn place_of(a: u64, c: u64) -> Option<u64>
    ensures { result ≡ counted a c }
{
    (c < a).then_some(c)
}
