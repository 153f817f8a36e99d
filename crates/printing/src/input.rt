// The lines of an input.
ghost use Rattle.std.specs.Prelude.{◌≡◌};
ghost use Rattle.printing.specs.Input.{one_at, numbers_from, readable};

use texts::line::numbers_at;

// "at most 65,536 bytes"; "Table and pool lines hold at most 768 and 4,096 numbers"
const MOST_BYTES: usize = 65536;

// One byte more than the longest input, to see that an input is longer.
pub const INPUT_ROOM: usize = MOST_BYTES + 1;

pub const TABLE_WORDS: usize = 768;

pub const POOL_WORDS: usize = 4096;

// The number that is alone on a line, and the place after the line.
#[derive(Clone, Copy, Debug, PartialEq, Eq)]
pub struct One {
    pub number: u64,
    pub next: usize,
}

// "one number a line"
pub fn one_at(text: &[u8], at: usize) -> Option<One>
    ensures { result ≡ one_at text.now at }
{
    let mut word = [0];
    let line = numbers_at(text, at, &mut word)?;
    if line.count == 0 {
        return None;
    }
    Some(One {
        number: word[0],
        next: line.next,
    })
}

// Whether each line from a place on is a number, and the last one ends the text.
pub fn one_each(text: &[u8], from: usize) -> bool
    ensures { result ≡ readable (numbers_from text.now from) }
{
    let mut at = from;
    // A step is a line: how many bytes it takes shows as it is read, so no iterator goes over them.
    while at < text.len() {
        let Some(one) = one_at(text, at) else {
            return false;
        };
        at = one.next;
    }
    true
}
