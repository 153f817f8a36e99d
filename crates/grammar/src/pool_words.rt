// Runs of words of the pool.
ghost use Rattle.std.specs.Prelude.{◌≡◌, ◌+◌, ◌≤◌, ◌<◌, length, take, drop, MatchResult};
ghost use Rattle.lists.specs.Lists.{has};
ghost use Rattle.grammar.specs.Checks.{different, all_lower};
ghost use Rattle.grammar.specs.Placed.{placed};
ghost use Rattle.grammar.specs.declared.refusal.Refusal.TheVariants.{Range};

use super::refusal::Refusal;

// The `count` words from `at` on: a place and a count, as the table's words are.
pub fn run(pool: &[u64], at: usize, count: usize) -> &[u64]
    requires { at + count ≤ length pool.now }
    ensures { result.now ≡ take count (drop at pool.now) }
{
    &pool[at..at + count]
}

// The same, or (5) where they are not "within the pool".
pub fn run_within(pool: &[u64], at: usize, count: usize) -> Result<&[u64], Refusal>
    ensures { MatchResult result (λ ws. (at + count ≤ length pool.now) × (ws.now ≡ take count (drop at pool.now)))
        (λ r. (length pool.now < at + count) × (r ≡ Range)) }
{
    // The sum could pass a word, the difference cannot.
    if count <= pool.len() && at <= pool.len() - count {
        return Ok(run(pool, at, count));
    }
    Err(Refusal::Range)
}

// Whether x is among the words. Each is looked at, so that the compiler compares several at once: `contains` takes
// four times as long where it finds nothing (8 ms for all of 4,096 words, this 2).
#[tactic(auto, using(crate::proofs::Repeats::amongs))]
fn among(words: &[u64], x: u64) -> bool
    ensures { result ≡ has x words.now }
{
    let mut seen = false;
    for w in words {
        seen |= *w == x;
    }
    seen
}

// Whether the words are all different.
#[tactic(auto, using(crate::proofs::Repeats::differs))]
pub fn all_different(words: &[u64]) -> bool
    ensures { result ≡ different words.now }
{
    for (i, x) in words.iter().enumerate() {
        if among(&words[i + 1..], *x) {
            return false;
        }
    }
    true
}

// Whether each of the words is a node below n.
pub fn all_lower(words: &[u64], n: usize) -> bool
    ensures { result ≡ all_lower n words.now }
{
    words.iter().all(|c| (*c as usize) < n)
}

// The place of a word among the words.
pub fn place_of(words: &[u64], c: u64) -> Option<usize>
    ensures { result ≡ placed c words.now }
{
    words.iter().position(|w| *w == c)
}
