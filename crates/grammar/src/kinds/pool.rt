// 2 pool | place, count | 1 <= b <= 4,096 and a+b within the pool (5); words all different (6) | b
ghost use Rattle.std.specs.Prelude.{◌≡◌, List, ℕ, ◌+◌, ◌<◌, ◌≤◌, length, get_or, take, drop};
ghost use Rattle.numbers.specs.Size.{Size};
ghost use Rattle.grammar.specs.Nodes.{node_with};
ghost use Rattle.grammar.specs.kinds.Pool.{pool as pool_kind};
ghost use Rattle.grammar.specs.Plan.{weighed};
ghost use Rattle.grammar.specs.Placed.{placed};

use super::super::pool_words;
use super::super::pool_words::{all_different, run, run_within};
use super::super::refusal::Refusal;
use super::asks;

// "1 <= b <= 4,096"
const MOST_WORDS: usize = 4096;

#[tactic(auto, unfolding(crate::proofs::Tests::rows, crate::specs::kinds::Pool::pool_rule))]
pub fn check(pool: &[u64], a: usize, b: usize) -> Result<u64, Refusal>
    ensures { (t : List ℕ) (n : ℕ) (z : ℕ → Size) → result ≡ weighed pool_kind (node_with t pool.now n a b) z }
{
    asks(1 <= b, Refusal::Range)?;
    asks(b <= MOST_WORDS, Refusal::Range)?;
    let words = run_within(pool, a, b)?;
    asks(all_different(words), Refusal::Repeat)?;
    Ok(b as u64)
}

// A visit at n: "the word at place+n"
pub fn step(pool: &[u64], a: usize, n: u64) -> u64
    requires { (a + n < length pool.now) × (length pool.now ≤ 4096) }
    ensures { result ≡ get_or pool.now (a + n) 0 }
{
    pool[a + n as usize]
}

// Where c is among `count` words of the pool, from `at` on: a place and a count, as the table's words are.
pub fn place_of(pool: &[u64], at: usize, count: usize, c: u64) -> Option<u64>
    requires { at + count ≤ length pool.now }
    ensures { result ≡ placed c (take count (drop at pool.now)) }
{
    pool_words::place_of(run(pool, at, count), c).map(|k| k as u64)
}
