// The whole square root of any word.
ghost use Rattle.std.specs.Prelude.{◌≡◌, ◌*◌, ◌<◌, ◌≤◌, ◌^◌};
ghost use Rattle.numbers.specs.Root.{root, Above};

use super::power::{down, up};

// The largest root of a word, 2^32 - 1.
const MOST: u64 = 4294967295;

// The root of a word whose top seven bits are `top`, to sixteen bits: that of the middle, by ratio, of such words. A
// `match` and not an array: the compiler makes it a table that is not copied to the stack at each root.
fn top_root(top: u64) -> u16 {
    match top {
        0 => 4096,
        1 => 6889,
        2 => 9066,
        3 => 10781,
        4 => 12250,
        5 => 13557,
        6 => 14746,
        7 => 15846,
        8 => 16874,
        9 => 17842,
        10 => 18760,
        11 => 19634,
        12 => 20472,
        13 => 21276,
        14 => 22051,
        15 => 22800,
        16 => 23524,
        17 => 24227,
        18 => 24910,
        19 => 25575,
        20 => 26223,
        21 => 26856,
        22 => 27473,
        23 => 28078,
        24 => 28669,
        25 => 29248,
        26 => 29817,
        27 => 30374,
        28 => 30922,
        29 => 31460,
        30 => 31989,
        31 => 32509,
        32 => 33021,
        33 => 33525,
        34 => 34022,
        35 => 34512,
        36 => 34995,
        37 => 35471,
        38 => 35941,
        39 => 36405,
        40 => 36863,
        41 => 37315,
        42 => 37762,
        43 => 38204,
        44 => 38640,
        45 => 39072,
        46 => 39499,
        47 => 39922,
        48 => 40340,
        49 => 40754,
        50 => 41163,
        51 => 41569,
        52 => 41971,
        53 => 42368,
        54 => 42763,
        55 => 43153,
        56 => 43540,
        57 => 43924,
        58 => 44304,
        59 => 44681,
        60 => 45055,
        61 => 45426,
        62 => 45794,
        63 => 46159,
        64 => 46521,
        65 => 46880,
        66 => 47237,
        67 => 47591,
        68 => 47942,
        69 => 48291,
        70 => 48637,
        71 => 48980,
        72 => 49322,
        73 => 49661,
        74 => 49997,
        75 => 50332,
        76 => 50664,
        77 => 50994,
        78 => 51322,
        79 => 51648,
        80 => 51972,
        81 => 52294,
        82 => 52614,
        83 => 52932,
        84 => 53248,
        85 => 53562,
        86 => 53874,
        87 => 54185,
        88 => 54493,
        89 => 54800,
        90 => 55106,
        91 => 55409,
        92 => 55711,
        93 => 56012,
        94 => 56310,
        95 => 56607,
        96 => 56903,
        97 => 57197,
        98 => 57490,
        99 => 57781,
        100 => 58070,
        101 => 58359,
        102 => 58645,
        103 => 58931,
        104 => 59215,
        105 => 59498,
        106 => 59779,
        107 => 60059,
        108 => 60338,
        109 => 60615,
        110 => 60891,
        111 => 61166,
        112 => 61440,
        113 => 61712,
        114 => 61983,
        115 => 62254,
        116 => 62522,
        117 => 62790,
        118 => 63057,
        119 => 63322,
        120 => 63587,
        121 => 63850,
        122 => 64112,
        123 => 64373,
        124 => 64634,
        125 => 64893,
        126 => 65151,
        _ => 65408,
    }
}

// About the root of n, which is not 0: that of its top seven bits, moved to its place. It promises
// nothing but its range, since `root_of` is right from any guess, and quick from a near one.
fn guess(n: u64) -> u64
    requires { 0 < n }
    ensures { (1 < result) × (result < 2 ^ 32) }
{
    let half = n.leading_zeros() / 2;
    let top = (n << (2 * half)) >> 57;
    let near = u64::from(top_root(top)) << 16;
    (near >> half) + 2
}

// Newton's step from any guess gives the root or more.
fn step_above(n: u64, near: u64) -> u64
    requires { (1 < near) × (near ≤ 2 ^ 32) }
    ensures { Above n result }
{
    ((near + n / near) / 2).min(MOST)
}

// Below this a guess is so near that no division is needed: deep in a large case nearly all numbers are small.
const SMALL: u64 = 65536;

// Below this one step of Newton's leaves at most a few numbers to the root, and from here on two.
const MIDDLE: u64 = 4294967296;

// From any guess a step gives the root or more, and a near one from a near guess; then it goes down to the root.
pub fn root_of(n: u64) -> u64
    ensures { result ≡ root n }
{
    if n == 0 {
        return 0;
    }
    let near = guess(n);
    if n < SMALL {
        return up(2, n, down(2, n, near));
    }
    let nearer = step_above(n, near);
    if n < MIDDLE {
        return down(2, n, nearer);
    }
    down(2, n, step_above(n, nearer))
}
