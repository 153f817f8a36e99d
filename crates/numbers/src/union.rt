// Unions of three to eight parts: 02, "A union of k takes part n mod k at n div k".
ghost use Rattle.std.specs.Prelude.{◌≡◌, ◌≤◌};
ghost use Rattle.numbers.specs.Dep.{split, endlesses};

use super::cons::Pair;
use super::divided::divided;

// The part, and the number in it: what dep has for endless seconds.
#[tactic(auto, unfolding(crate::specs::Dep::split))]
pub fn split(k: usize, n: u64) -> Pair
    requires { (3 ≤ k) × (k ≤ 8) }
    ensures { result ≡ split (endlesses k) n }
{
    let q = divided(n, k);
    Pair {
        first: n - q * k as u64,
        second: q,
    }
}
