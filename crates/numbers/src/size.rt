// Sizes: "a whole number up to 2^62, or endless", each in one word.
ghost use Rattle.std.specs.Prelude.{◌≡◌, ◌<◌};
ghost use Rattle.numbers.specs.Size.{finite, plus, times, less, size_of, code_of, measured};

// The word of an endless size, above every finite one, so that `<` between words is that of sizes. No enum: the functions
// below answer for every word, and a type would ask more.
pub const ENDLESS: u64 = 9223372036854775808;

// The largest finite size, 2^62.
pub const LARGEST: u64 = 4611686018427387904;

// A finite size's word, or none past the largest: refusal 8 is given when a finite size passes 2^62.
#[tactic(auto, using(crate::proofs::Tests::kept), unfolding(crate::specs::Size::measured))]
fn measured(s: u64) -> Option<u64>
    ensures { result ≡ measured (finite s) }
{
    (s <= LARGEST).then_some(s)
}

// The sum of two sizes: endless plus anything is endless.
pub fn sum(s: u64, t: u64) -> Option<u64>
    ensures { result ≡ measured (plus (size_of s) (size_of t)) }
{
    if ENDLESS <= s || ENDLESS <= t {
        return Some(ENDLESS);
    }
    measured(s + t)
}

// The product of two sizes: endless times anything is endless.
pub fn product(s: u64, t: u64) -> Option<u64>
    ensures { result ≡ measured (times (size_of s) (size_of t)) }
{
    if ENDLESS <= s || ENDLESS <= t {
        return Some(ENDLESS);
    }
    measured(s.checked_mul(t)?)
}

// One less: endless less one is endless.
#[tactic(auto, unfolding(crate::specs::Size::less, crate::specs::Size::size_of))]
pub fn one_less(s: u64) -> u64
    requires { 0 < s }
    ensures { result ≡ code_of (less (size_of s)) }
{
    if ENDLESS <= s { ENDLESS } else { s - 1 }
}
