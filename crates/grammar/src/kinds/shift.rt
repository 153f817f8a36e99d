// 3 shift | node, k | a lower (4); k <= 2^32 (5); node a of kind 0, 1 or 3 (7) | of a
ghost use Rattle.std.specs.Prelude.{◌≡◌, ◌||◌, List, ℕ, ◌+◌, eqb, ◌*◌, ◌<◌, ◌≤◌, length};
ghost use Rattle.grammar.specs.Table.{nodes};
ghost use Rattle.grammar.specs.Nodes.{node_with};
ghost use Rattle.grammar.specs.kinds.Shift.{shift};
ghost use Rattle.grammar.specs.Plan.{size_in, weighed};

use super::super::entry::Entry;
use super::super::kind::Kind;
use super::super::refusal::Refusal;
use super::{asks, size_of};

// A shift adds at most 2^32.
const LARGEST_SHIFT: u64 = 4294967296;

// "node a of kind 0, 1 or 3"
fn may_shift(word: u64) -> bool
    ensures { result ≡ ((eqb word 0 || eqb word 1) || eqb word 3) }
{
    matches!(
        Kind::try_from(word),
        Ok(Kind::Below | Kind::Nats | Kind::Shift)
    )
}

#[tactic(auto, unfolding(crate::proofs::Tests::rows, crate::specs::kinds::Shift::shift_rule))]
pub fn check(table: &[u64], plan: &[Entry], n: usize, a: usize, k: u64) -> Result<u64, Refusal>
    requires { (length table.now ≡ 3 * nodes table.now) × (n < nodes table.now) × (n ≤ length plan.now) }
    ensures { (p : List ℕ) → result ≡ weighed shift (node_with table.now p n a k) (size_in plan.now) }
{
    asks(a < n, Refusal::Reference)?;
    asks(k <= LARGEST_SHIFT, Refusal::Range)?;
    asks(may_shift(table[3 * a]), Refusal::UnsuitedPart)?;
    Ok(size_of(plan[a].size))
}
