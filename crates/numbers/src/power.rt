// The whole t-th root, for the three to eight parts that a tuple may have. The search from a near number on is that of the
// square root too, at t = 2.
ghost use Rattle.std.specs.Prelude.{◌≡◌, ◌+◌, ◌^◌, ◌≤◌, ◌<◌};
ghost use Rattle.numbers.specs.Joined.{limit};
ghost use Rattle.numbers.specs.Power.{root_of};

use super::divided::divided;

// Of a constant exponent `pow` is a few products; of another one it tests the exponent's bits. The square root's 2 is a
// constant where its search is compiled.
fn power(base: u64, t: usize) -> u64
    requires { (t ≤ 8) × (base ^ t < 2 ^ 64) }
    ensures { result ≡ base ^ t }
{
    match t {
        3 => base.pow(3),
        4 => base.pow(4),
        5 => base.pow(5),
        6 => base.pow(6),
        7 => base.pow(7),
        8 => base.pow(8),
        _ => base.pow(t as u32),
    }
}

// The largest root of a number that a walk has: the power of the next one is past every number's limit.
pub fn most(t: usize) -> u64
    requires { (3 ≤ t) × (t ≤ 8) }
    ensures { result ≡ root_of t limit }
{
    match t {
        3 => 1664510,
        4 => 46340,
        5 => 5404,
        6 => 1290,
        7 => 463,
        _ => 215,
    }
}

// 1 in fixed point, with 16 bits behind the point.
const ONE: u64 = 65536;

// log2(1 + x) is about x + x(1 - x)(0.4219 - 0.1566x).
const LOG_CURVE: u64 = 27648;

const LOG_SLOPE: u64 = 10260;

// 2^y is about 1 + y - y(1 - y)(0.3027 + 0.0827y).
const POWER_CURVE: u64 = 19835;

const POWER_SLOPE: u64 = 5418;

// The product of two numbers in fixed point.
fn product(x: u64, y: u64) -> u64
    requires { (x ≤ 65536) × (y ≤ 65536) }
    ensures { result ≤ y }
{
    (x * y) >> 16
}

// About the logarithm of n to the base 2, in fixed point. Its range is all that it promises, as that of a power of two
// below: `root` is right from any guess, and quick from a near one.
fn logarithm(n: u64) -> u64
    requires { 0 < n }
    ensures { result < 2 ^ 23 }
{
    let zeros = n.leading_zeros();
    let x = ((n << zeros) >> 47) % ONE;
    let whole = 63 - u64::from(zeros);
    whole * ONE + x + product(LOG_CURVE - product(x, LOG_SLOPE), product(ONE - x, x))
}

fn power_of_two(log: u64) -> u64
    requires { log < 2 ^ 22 }
{
    let y = log % ONE;
    let e = ONE + y - product(POWER_CURVE + product(y, POWER_SLOPE), product(ONE - y, y));
    (e << (log >> 16)) >> 16
}

// From here on a guess may be more than two off, and a step of Newton's pays.
const LARGE: u64 = 4096;

// Newton's step from a large guess. Any number is as good as another here, up to the largest root.
fn nearer(t: usize, n: u64, near: u64) -> u64
    requires { (3 ≤ t) × (t ≤ 8) × (n ≤ limit) × (near ≤ root_of t limit) }
    ensures { result ≤ root_of t limit }
{
    if near < LARGE {
        return near;
    }
    let others = t - 1;
    divided(others as u64 * near + n / power(near, others), t).min(most(t))
}

// About the root of n, and at most the largest root.
fn guess(t: usize, n: u64) -> u64
    requires { (3 ≤ t) × (t ≤ 8) × (n ≤ limit) × (0 < n) }
    ensures { result ≤ root_of t limit }
{
    let near = power_of_two(divided(logarithm(n), t));
    nearer(t, n, near.min(most(t)))
}

// The first number from `from` down whose power is within n: the root, where that is not above `from`. A loop, as `up` too:
// there is always such a number, and `find` over the numbers would answer an Option of it.
pub(super) fn down(t: usize, n: u64, from: u64) -> u64
    requires { (0 < t) × (t ≤ 8) × (from ^ t < 2 ^ 64) }
    ensures within { result ^ t ≤ n }
    ensures root { n < (from + 1) ^ t → result ≡ root_of t n }
{
    let mut r = from;
    while n < power(r, t) {
        r -= 1;
    }
    r
}

// The last number from `from` up whose power is within n.
pub(super) fn up(t: usize, n: u64, from: u64) -> u64
    requires { (0 < t) × (t ≤ 8) × (from ^ t ≤ n) × ((root_of t n + 1) ^ t < 2 ^ 64) }
    ensures { result ≡ root_of t n }
{
    let mut r = from;
    while power(r + 1, t) <= n {
        r += 1;
    }
    r
}

pub fn root(t: usize, n: u64) -> u64
    requires { (3 ≤ t) × (t ≤ 8) × (n ≤ limit) }
    ensures { result ≡ root_of t n }
{
    if n == 0 {
        return 0;
    }
    if n >> t == 0 {
        return 1;
    }
    let near = guess(t, n);
    if n < power(near, t) {
        return down(t, n, near - 1);
    }
    up(t, n, near)
}
