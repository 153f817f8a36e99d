// 9 again | fix | b zero (3); a above the own number, in the table, with kind word 8 (4) | endless
ghost use Rattle.std.specs.Prelude.{◌≡◌, List, ℕ, ◌*◌, length};
ghost use Rattle.numbers.specs.Size.{Size};
ghost use Rattle.grammar.specs.Table.{nodes};
ghost use Rattle.grammar.specs.Nodes.{node_with};
ghost use Rattle.grammar.specs.kinds.Again.{again};
ghost use Rattle.grammar.specs.Plan.{weighed};

use super::super::kind::Kind;
use super::super::refusal::Refusal;
use super::asks;
use numbers::size::ENDLESS;

#[tactic(auto, unfolding(crate::proofs::Tests::rows, crate::specs::kinds::Fix::pass_rule))]
pub fn check(table: &[u64], n: usize, a: usize) -> Result<u64, Refusal>
    requires { length table.now ≡ 3 * nodes table.now }
    ensures { (p : List ℕ) (b : ℕ) (z : ℕ → Size) → result ≡ weighed again (node_with table.now p n a b) z }
{
    asks(n < a, Refusal::Reference)?;
    asks(a < table.len() / 3, Refusal::Reference)?;
    asks(table[3 * a] == Kind::Fix as u64, Refusal::Reference)?;
    Ok(ENDLESS)
}
