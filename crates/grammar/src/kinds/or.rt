// 4 or | nodes | both lower (4); size (8) | sum
ghost use Rattle.std.specs.Prelude.{◌≡◌, List, [], ◌∷◌, ℕ, ◌+◌, ◌*◌, ◌<◌, ◌≤◌, eqb, length};
ghost use Rattle.numbers.specs.Pick.{pick};
ghost use Rattle.numbers.specs.Joined.{capped};
ghost use Rattle.numbers.specs.Or;
ghost use Rattle.grammar.specs.Nodes.{node_with};
ghost use Rattle.grammar.specs.Rule.{part};
ghost use Rattle.grammar.specs.kinds.Or.{or, or_rule};
ghost use Rattle.grammar.specs.Plan.{size_in, weighed};
ghost use Rattle.grammar.specs.Named.{named};
ghost use Rattle.grammar.specs.Shown.{ShowsTagged};

use super::super::entry::Entry;
use super::super::named::{Named, one, two};
use super::super::refusal::Refusal;
use super::{Tagged, asks};
use numbers::or::Part;
use numbers::size;

#[tactic(auto, unfolding(crate::proofs::Tests::rows))]
pub fn check(plan: &[Entry], n: usize, a: usize, b: usize) -> Result<u64, Refusal>
    requires { n ≤ length plan.now }
    ensures { (t p : List ℕ) → result ≡ weighed or (node_with t p n a b) (size_in plan.now) }
{
    asks(a < n, Refusal::Reference)?;
    asks(b < n, Refusal::Reference)?;
    // (8) is given "when a finite size passes 2^62".
    size::sum(plan[a].size, plan[b].size).ok_or(Refusal::TooLarge)
}

// "to both parts"; a step to the second part guards a cycle.
pub(super) fn steps<'a>(a: usize, b: usize, guarded: bool) -> Named<'a>
    ensures { named result ≡ a ∷ pick guarded (b ∷ []) [] }
{
    if guarded {
        return two(a, b);
    }
    one(a)
}

// A visit at n: the tag and the part that n is of, and its number there, by the parts' sizes.
pub fn step(plan: &[Entry], a: usize, b: usize, n: u64) -> Tagged
    requires { (a < length plan.now) × (b < length plan.now) }
    ensures { ShowsTagged ((or_rule (size_in plan.now a) (size_in plan.now b) a b).items n) result }
{
    match numbers::or::split(plan[a].size, plan[b].size, n) {
        Part::First(m) => Tagged {
            tag: 0,
            part: a,
            number: m,
        },
        Part::Second(m) => Tagged {
            tag: 1,
            part: b,
            number: m,
        },
    }
}

// The part that a tag leads to, and the other one.
#[derive(Clone, Copy, Debug, PartialEq, Eq)]
pub struct Sides {
    pub part: usize,
    pub other: usize,
}

pub fn sides_of(tag: u64, a: usize, b: usize) -> Sides
    ensures { (result.part ≡ pick (eqb tag 0) a b) × (result.other ≡ pick (eqb tag 0) b a) }
{
    if tag == 0 {
        return Sides { part: a, other: b };
    }
    Sides { part: b, other: a }
}

// The number of an or's case: m is the number of the part with this tag; c is the other part.
pub fn join(plan: &[Entry], tag: u64, c: usize, m: u64) -> Option<u64>
    requires { (tag ≤ 1) × (c < length plan.now) }
    ensures { result ≡ capped (Or.turn tag (size_in plan.now c) m) }
{
    numbers::or::turned(tag, plan[c].size, m)
}
