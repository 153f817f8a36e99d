// Tuples of three to eight parts: 02, "in order of their largest part number, and within one largest number in
// dictionary order".
ghost use Rattle.std.specs.Prelude.{◌≡◌, false, ◌+◌, ◌*◌, ◌^◌, ◌≤◌, ◌<◌, length};
ghost use Rattle.numbers.specs.Joined.{limit, capped};
ghost use Rattle.numbers.specs.Tuple.{largest, tail, split, join};
ghost use Rattle.numbers.specs.Weights.{Weights, weight};

use super::joined::cap;
use super::power::{most, root};

pub const MOST_PARTS: usize = 8;

// How many lists of part numbers up to r there are: once r has been met all that may follow, and before it those that
// have it.
#[derive(Clone, Copy, Debug, PartialEq, Eq)]
struct Ways {
    met: u64,
    unmet: u64,
}

// Of no parts.
const NONE: Ways = Ways { met: 1, unmet: 0 };

impl Ways {
    // Of one part more.
    fn and_one(self, r: u64) -> Ways
        requires { (r * self.met + self.met < 2 ^ 64) × (r * self.unmet + self.met < 2 ^ 64) }
        ensures { (result.met ≡ r * self.met + self.met)
            × (result.unmet ≡ r * self.unmet + self.met) }
    {
        Ways {
            met: r * self.met + self.met,
            unmet: r * self.unmet + self.met,
        }
    }

    // A look-up by what has been met: an enum would only name yes and no again.
    fn weight(self, seen: bool) -> u64
        ensures { result ≡ weight self seen }
    {
        if seen { self.met } else { self.unmet }
    }
}

// The ways of each count of parts, from none on.
fn weigh(r: u64, ways: &mut [Ways])
    requires { (r + 1) ^ length ways.old < 2 ^ 63 }
    ensures { Weights r ways.new }
{
    let mut next = NONE;
    for w in ways.iter_mut() {
        *w = next;
        next = next.and_one(r);
    }
}

// The list at place d, in dictionary order, of those of part numbers up to r that have r.
fn spread(r: u64, d: u64, ways: &[Ways], parts: &mut [u64])
    requires fits { (r + 1) ^ length ways.now < 2 ^ 63 }
    requires weights { Weights r ways.now }
    requires long { length parts.old ≡ length ways.now }
    ensures { parts.new ≡ tail false r (length parts.old) d }
{
    let mut left = d;
    let mut seen = false;
    for (j, part) in parts.iter_mut().enumerate() {
        let w = ways[ways.len() - 1 - j].weight(seen);
        if left < r * w {
            *part = left / w;
            left %= w;
        } else {
            *part = r;
            left -= r * w;
            seen = true;
        }
    }
}

// The part numbers of number n, as many as are lent.
pub fn split(n: u64, parts: &mut [u64])
    requires { (3 ≤ length parts.old) × (length parts.old ≤ 8) × (n ≤ limit) }
    ensures { parts.new ≡ split (length parts.old) n }
{
    let t = parts.len();
    let r = root(t, n);
    let mut all = [NONE; MOST_PARTS];
    let ways = &mut all[..t];
    weigh(r, ways);
    let last = ways[t - 1];
    // r^t, the number of tuples with a lower largest number
    let lower = r * (last.met - last.unmet);
    spread(r, n - lower, ways, parts);
}

fn largest(parts: &[u64]) -> u64
    ensures { result ≡ largest parts.now }
{
    parts.iter().copied().max().unwrap_or(0)
}

// The number of part numbers of which r is the largest. It goes from the last one on, with the ways of those behind and how
// many of them come before.
fn number(parts: &[u64], r: u64) -> u64
    requires { ((r + 1) ^ length parts.now < 2 ^ 63) × (r ≡ largest parts.now) }
    ensures { result ≡ join parts.now }
{
    let mut ways = NONE;
    let mut before = Ways { met: 0, unmet: 0 };
    for x in parts.iter().rev() {
        let unmet = if *x < r {
            x * ways.unmet + before.unmet
        } else {
            r * ways.unmet + before.met
        };
        before = Ways {
            met: x * ways.met + before.met,
            unmet,
        };
        ways = ways.and_one(r);
    }
    ways.met - ways.unmet + before.unmet
}

// Past the largest root the power alone is past the limit.
pub fn join(parts: &[u64]) -> Option<u64>
    requires { (3 ≤ length parts.now) × (length parts.now ≤ 8) }
    ensures { result ≡ capped (join parts.now) }
{
    let r = largest(parts);
    if most(parts.len()) < r {
        return None;
    }
    cap(number(parts, r))
}
