// or: 01, 000 and 001.
ghost use Rattle.std.specs.Prelude.{◌≡◌, ◌≤◌};
ghost use Rattle.numbers.specs.Size.{size_of};
ghost use Rattle.numbers.specs.Joined.{capped};
ghost use Rattle.numbers.specs.Or.{alternate, split, join, turn};

use super::joined::cap;

// A part and a number in it.
#[derive(Clone, Copy, Debug, PartialEq, Eq)]
pub enum Part {
    First(u64),
    Second(u64),
}

// "even n is the first part at n/2, odd n the second at (n-1)/2"
fn alternating(n: u64) -> Part
    ensures { result ≡ alternate n }
{
    if n % 2 == 0 {
        Part::First(n / 2)
    } else {
        Part::Second(n / 2)
    }
}

// n < 2s is asked as n/2 < s, which cannot overflow and always holds where s is endless.
pub fn split(s: u64, t: u64, n: u64) -> Part
    ensures { result ≡ split (size_of s) (size_of t) n }
{
    if s <= t {
        if n / 2 < s {
            return alternating(n);
        }
        return Part::Second(n - s);
    }
    if n / 2 < t {
        return alternating(n);
    }
    Part::First(n - t)
}

#[tactic(auto, unfolding(crate::specs::Or::join))]
pub fn join(s: u64, t: u64, p: Part) -> Option<u64>
    ensures { result ≡ capped (join (size_of s) (size_of t) p) }
{
    match p {
        Part::First(m) => turned(0, t, m),
        Part::Second(m) => turned(1, s, m),
    }
}

// Number m of part b, 0 or 1, where the other part has size u. At the limit it is past it: no join is less than its part.
pub fn turned(b: u64, u: u64, m: u64) -> Option<u64>
    requires { b ≤ 1 }
    ensures { result ≡ capped (turn b (size_of u) m) }
{
    let m = cap(m)?;
    cap(if m < u { 2 * m + b } else { m + u })
}
