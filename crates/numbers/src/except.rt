// except: the part without its number b.
ghost use Rattle.std.specs.Prelude.{◌≡◌, ◌+◌, ◌≤◌};
ghost use Rattle.numbers.specs.Joined.{capped, limit};
ghost use Rattle.numbers.specs.Except.{split, join};

use super::joined::cap;

// "the part at n if n < b, otherwise at n+1"
#[tactic(auto, unfolding(crate::specs::Except::split))]
pub fn split(b: u64, n: u64) -> u64
    requires { n ≤ limit }
    ensures { result ≡ split b n }
{
    if n < b { n } else { n + 1 }
}

// The part's number m is not the removed one, b: whoever reads has refused that.
#[tactic(auto, unfolding(crate::specs::Except::join))]
pub fn join(b: u64, m: u64) -> Option<u64>
    requires { m ≡ b → ⊥ }
    ensures { result ≡ capped (join b m) }
{
    if m < b { cap(m) } else { cap(m - 1) }
}
