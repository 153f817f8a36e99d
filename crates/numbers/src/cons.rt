// cons: 01 and 000, figure 5.
ghost use Rattle.std.specs.Prelude.{◌≡◌, ◌<◌, ◌*◌, ◌-◌};
ghost use Rattle.numbers.specs.Size.{size_of, endless};
ghost use Rattle.numbers.specs.Joined.{capped};
ghost use Rattle.numbers.specs.Cons.{split, join};

use super::joined::{cap, product_and};
use super::root::root_of;
use super::size::ENDLESS;

// The root of 2^62: from the next number on a square is past every joined number's limit.
const ROOT_OF_LARGEST: u64 = 2147483648;

// The numbers of the first part and of the second.
#[derive(Clone, Copy, Debug, PartialEq, Eq)]
pub struct Pair {
    pub first: u64,
    pub second: u64,
}

// The smaller part runs fastest, and of two equal ones the second. Words of endless parts count as equal.
pub fn split(i: u64, j: u64, n: u64) -> Pair
    requires { (0 < i) × (0 < j) }
    ensures { result ≡ split (size_of i) (size_of j) n }
{
    if i < j {
        if i < ENDLESS {
            return Pair {
                first: n % i,
                second: n / i,
            };
        }
        return split_square(n);
    }
    if j < ENDLESS {
        return Pair {
            first: n / j,
            second: n % j,
        };
    }
    split_square(n)
}

// "r the whole square root of n, d = n - r*r; if d < r the pair is (d, r), else (r, d-r)"
fn split_square(n: u64) -> Pair
    ensures { result ≡ split endless endless n }
{
    let r = root_of(n);
    let d = n - r * r;
    if d < r {
        Pair {
            first: d,
            second: r,
        }
    } else {
        Pair {
            first: r,
            second: d - r,
        }
    }
}

pub fn join(i: u64, j: u64, x: u64, y: u64) -> Option<u64>
    ensures { result ≡ capped (join (size_of i) (size_of j) x y) }
{
    if j <= i {
        if j < ENDLESS {
            return product_and(x, j, y);
        }
        return join_square(x, y);
    }
    if i < ENDLESS {
        return product_and(y, i, x);
    }
    join_square(x, y)
}

// The square is decided before it is made: past the root of 2^62 it is past the limit.
fn join_square(x: u64, y: u64) -> Option<u64>
    ensures { result ≡ capped (join endless endless x y) }
{
    if ROOT_OF_LARGEST < x.max(y) {
        return None;
    }
    if x < y {
        cap(y * y + x)
    } else {
        cap(x * x + x + y)
    }
}
