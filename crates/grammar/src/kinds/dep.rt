// 6 dep | node, place | a lower (4); its size m finite, at most 256 (7); b+m within the pool (5); each of those m words
// a lower node (4); all finite or all endless (7); size (8) | sum of the seconds
ghost use Rattle.std.specs.Prelude.{◌≡◌, List, ◌∷◌, ℕ, ◌+◌, ◌*◌, ◌^◌, ◌<◌, ◌≤◌, length, get_or, take, drop};
ghost use Rattle.numbers.specs.Joined.{capped};
ghost use Rattle.numbers.specs.Dep.{in_turn};
ghost use Rattle.numbers.specs.Dep;
ghost use Rattle.grammar.specs.Kind.{before};
ghost use Rattle.grammar.specs.Named.{named};
ghost use Rattle.grammar.specs.Nodes.{node_with};
ghost use Rattle.grammar.specs.Plan.{size_in, size_word, coded, weighed};
ghost use Rattle.grammar.specs.Rule.{part};
ghost use Rattle.grammar.specs.kinds.Dep.{counts, seconds_of, seconds_row, dep};
ghost use Rattle.grammar.specs.Seconds.{firsts, DepIn};
ghost use Rattle.grammar.specs.Shown.{seconds_in, seconds_sized, ShowsDep};

use super::super::entry::Entry;
use super::super::named::Named;
use super::super::pool_words::{all_lower, run, run_within};
use super::super::refusal::Refusal;
use super::{Two, asks};
use numbers::cons::Pair;
use numbers::size::{ENDLESS, LARGEST};

// "its size m finite, at most 256"
const MOST_FIRSTS: u64 = 256;

#[tactic(auto, using(crate::proofs::Tests::size_tests), unfolding(crate::proofs::Tests::rows, crate::specs::kinds::Dep::dep_rule))]
pub fn check(pool: &[u64], plan: &[Entry], n: usize, a: usize, b: usize) -> Result<u64, Refusal>
    requires { n ≤ length plan.now }
    ensures { (t : List ℕ) → result ≡ weighed dep (node_with t pool.now n a b) (size_in plan.now) }
{
    asks(a < n, Refusal::Reference)?;
    let m = plan[a].size;
    asks(m <= MOST_FIRSTS, Refusal::UnsuitedPart)?;
    let words = run_within(pool, b, m as usize)?;
    seconds(plan, n, words)
}

// The rest of a dep's row, in two passes over its seconds: "each of those m words a lower node" comes before "all finite or all endless",
// and the pass over their sizes, judged after the last one, is shorter without that test.
#[tactic(auto, using(crate::proofs::Sums::ends))]
fn seconds(plan: &[Entry], n: usize, words: &[u64]) -> Result<u64, Refusal>
    requires { n ≤ length plan.now }
    ensures { result ≡ coded (seconds_row n (before (size_in plan.now) n) words.now) }
{
    asks(all_lower(words, n), Refusal::Reference)?;
    // How many are finite so far, and their sum.
    let mut finite = 0;
    let mut sum: u64 = 0;
    for c in words {
        let s = plan[*c as usize].size;
        if s < ENDLESS {
            finite += 1;
            // Past 2^62 it grows no more, so it cannot overflow.
            if sum <= LARGEST {
                sum += s;
            }
        }
    }
    if finite == words.len() {
        asks(sum <= LARGEST, Refusal::TooLarge)?;
        return Ok(sum);
    }
    asks(finite == 0, Refusal::UnsuitedPart)?;
    Ok(ENDLESS)
}

// "Seconds finite: all pairs of first 0, then of first 1, and so on."
#[tactic(auto, using(crate::proofs::SecondsInTurn::turnings))]
fn in_turn(plan: &[Entry], words: &[u64], n: u64) -> Pair
    requires inside { (i : ℕ) → i < length words.now → get_or words.now i 0 < length plan.now }
    requires finite { (i : ℕ) → i < length words.now → size_word plan.now (get_or words.now i 0) < 2 ^ 63 }
    ensures { result ≡ in_turn (counts (size_in plan.now) words.now) n }
{
    let mut rest = n;
    for (k, c) in words.iter().enumerate() {
        let s = plan[*c as usize].size;
        if rest < s {
            return Pair {
                first: k as u64,
                second: rest,
            };
        }
        rest -= s;
    }
    Pair {
        first: words.len() as u64,
        second: rest,
    }
}

// What is asked (`DepIn`) is of a plan, a pool and a node's two words, which the walks hold apart.
//
// The two parts' numbers, by the seconds' sizes: "Seconds endless: first n mod m, second n div m."
fn parts(pool: &[u64], plan: &[Entry], a: usize, b: usize, n: u64) -> Pair
    requires { DepIn plan.now pool.now a b }
    ensures { result ≡ Dep.split (seconds_sized plan.now pool.now a b) n }
{
    let m = plan[a].size;
    let head = pool[b] as usize;
    if plan[head].size < ENDLESS {
        return in_turn(plan, run(pool, b, m as usize), n);
    }
    numbers::dep::split_endless(m, n)
}

// A visit at n: the first part, and the second that its number chooses.
pub fn step(pool: &[u64], plan: &[Entry], a: usize, b: usize, n: u64) -> Two
    requires dep_in { DepIn plan.now pool.now a b × (length pool.now ≤ 4096) }
    requires n_bound { (Dep.split (seconds_of (size_in plan.now) (take (firsts plan.now a) (drop b pool.now))) n).first < firsts plan.now a }
    ensures { ShowsDep plan.now pool.now a b n result }
{
    let q = parts(pool, plan, a, b, n);
    let x = q.first;
    Two {
        first: a,
        x,
        second: pool[b + x as usize] as usize,
        y: q.second,
    }
}

// The sum of the sizes of a dep's seconds, of some of them: those before the one that is read.
#[tactic(auto, using(crate::proofs::Joins::summings))]
fn sum_of(plan: &[Entry], words: &[u64]) -> u64
    requires inside { (i : ℕ) → i < length words.now → get_or words.now i 0 < length plan.now }
    requires finite { (i : ℕ) → i < length words.now → size_word plan.now (get_or words.now i 0) < 2 ^ 63 }
    requires sum_bound { Dep.total (counts (size_in plan.now) words.now) < 2 ^ 63 }
    ensures { result ≡ Dep.total (counts (size_in plan.now) words.now) }
{
    let mut sum = 0;
    for c in words {
        sum += plan[*c as usize].size;
    }
    sum
}

// The number of a dep's case: x is the first part's number, y that of the second that it chooses.
pub fn join(pool: &[u64], plan: &[Entry], a: usize, b: usize, x: u64, y: u64) -> Option<u64>
    requires { DepIn plan.now pool.now a b × (x < firsts plan.now a) }
    ensures { result ≡ capped (Dep.join (seconds_sized plan.now pool.now a b) x y) }
{
    let head = pool[b] as usize;
    if plan[head].size < ENDLESS {
        let sum = sum_of(plan, run(pool, b, x as usize));
        return numbers::dep::join_finite(sum, y);
    }
    numbers::dep::join_endless(plan[a].size, x, y)
}

// "to a dep's first and each second"
pub(super) fn steps<'a>(pool: &'a [u64], plan: &[Entry], a: usize, b: usize) -> Named<'a>
    requires { (a < length plan.now) × (b + firsts plan.now a ≤ length pool.now) }
    ensures { named result ≡ a ∷ seconds_in plan.now pool.now a b }
{
    Named {
        first: Some(a),
        second: None,
        rest: run(pool, b, plan[a].size as usize),
    }
}
