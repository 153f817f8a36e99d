// dep: 01 and 004. Endless seconds are arithmetic alone. Finite ones stand one after the other, so
// whoever has their sizes goes through them; what is left then is a sum.
ghost use Rattle.std.specs.Prelude.{◌≡◌, ◌<◌, ◌+◌};
ghost use Rattle.numbers.specs.Joined.{capped};
ghost use Rattle.numbers.specs.Dep.{split, join, endlesses};

use super::cons::Pair;
use super::joined::{cap, product_and};

// "Seconds endless: first n mod m, second n div m."
#[tactic(auto, unfolding(crate::specs::Dep::split))]
pub fn split_endless(m: u64, n: u64) -> Pair
    requires { 0 < m }
    ensures { result ≡ split (endlesses m) n }
{
    Pair {
        first: n % m,
        second: n / m,
    }
}

#[tactic(auto, unfolding(crate::specs::Dep::join))]
pub fn join_endless(m: u64, x: u64, y: u64) -> Option<u64>
    ensures { result ≡ capped (join (endlesses m) x y) }
{
    product_and(y, m, x)
}

// Number y of a second, where before is the sum of the sizes of those before it.
#[tactic(auto, using(crate::proofs::joined::Capped::is_big))]
pub fn join_finite(before: u64, y: u64) -> Option<u64>
    ensures { result ≡ capped (before + y) }
{
    cap(before.checked_add(y)?)
}
