// Numbers that look random, and a sum of all answers. The twin has the same.
const HALF: u64 = 2147483648;

// The largest prime below 2^31, and the next below it.
const PRIME: u64 = 2147483647;

const LOWER_PRIME: u64 = 2147483629;

fn stirred(x: u64) -> u64 {
    ((x % HALF) * 1103515245 + 12345) % HALF
}

// A number of 62 bits.
pub fn drawn(k: u64) -> u64 {
    let a = stirred(k);
    let b = stirred(a);
    let c = stirred(b);
    (b % HALF) * HALF + c % HALF
}

pub fn drawn_below(k: u64, limit: u64) -> u64 {
    drawn(k).checked_rem(limit).unwrap_or(0)
}

// One more answer in the sum.
pub fn mixed(sum: u64, answer: u64) -> u64 {
    ((sum % PRIME) * 31 + answer % LOWER_PRIME) % PRIME
}

pub fn mixed_all(sum: u64, words: &[u64]) -> u64 {
    words.iter().fold(sum, |all, &word| mixed(all, word))
}

// The word at a place, 0 where there is none.
pub fn word_at(words: &[u64], at: usize) -> u64 {
    words.get(at).copied().unwrap_or(0)
}
