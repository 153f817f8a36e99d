// 1 nats | none | both zero (3) | endless
ghost use Rattle.std.specs.Prelude.{◌≡◌, List, ℕ};
ghost use Rattle.numbers.specs.Size.{Size};
ghost use Rattle.grammar.specs.Nodes.{node_with};
ghost use Rattle.grammar.specs.kinds.Nats.{nats};
ghost use Rattle.grammar.specs.Plan.{weighed};

use super::super::refusal::Refusal;
use numbers::size::ENDLESS;

#[tactic(auto, unfolding(crate::proofs::Tests::rows, crate::specs::kinds::Nats::nats_rule))]
pub fn check() -> Result<u64, Refusal>
    ensures { (t p : List ℕ) (n a b : ℕ) (z : ℕ → Size) → result ≡ weighed nats (node_with t p n a b) z }
{
    Ok(ENDLESS)
}
