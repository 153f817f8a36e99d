// The decimal number that starts at a place of a text.
ghost use Rattle.std.specs.Prelude.{◌≡◌, ◌+◌, ◌*◌, length, take_while};
ghost use Rattle.std.specs.Char.{is_ascii_digit};
ghost use Rattle.texts.specs.Numeral.{run, value, worded, numeral_at};

use super::ascii::{BASE, DIGIT_0};

// A number and the place after its digits.
#[derive(Clone, Copy, Debug, PartialEq, Eq)]
pub struct Numeral {
    pub value: u64,
    pub end: usize,
}

// All digits from `at` on belong to the number: "012" is no number, and not 0 before 12.
pub fn number_at(text: &[u8], at: usize) -> Option<Numeral>
    ensures { result ≡ numeral_at text.now at }
{
    let rest = text.get(at..)?;
    let size = digits_size(rest);
    if size == 0 {
        return None;
    }
    if rest[0] == DIGIT_0 && 1 < size {
        return None; // a leading zero
    }
    let value = value_of(&rest[..size])?;
    let end = at + size;
    Some(Numeral { value, end })
}

// How many digits a text starts with.
fn digits_size(text: &[u8]) -> usize
    ensures { result ≡ length (take_while is_ascii_digit text.now) }
{
    text.iter().take_while(|byte| byte.is_ascii_digit()).count()
}

// The value of a run of digits, where it is a word.
fn value_of(digits: &[u8]) -> Option<u64>
    requires { run digits.now ≡ digits.now }
    ensures { result ≡ worded (value digits.now) }
{
    let mut value = 0;
    for byte in digits {
        value = with_digit(value, u64::from(*byte - DIGIT_0))?;
    }
    Some(value)
}

// One more digit.
#[tactic(auto, unfolding(crate::specs::Numeral::worded))]
fn with_digit(value: u64, digit: u64) -> Option<u64>
    ensures { result ≡ worded (10 * value + digit) }
{
    value.checked_mul(BASE)?.checked_add(digit)
}
