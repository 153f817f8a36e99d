// A line of numbers, read in two passes: the first decides, so that an unreadable line stores nothing.
ghost use Rattle.std.specs.Prelude.{◌≡◌, length};
ghost use Rattle.texts.specs.Line.{line_at, within, answer, stored, ReadLine, HasCount};

use super::ascii::{LF, SPACE};
use super::numeral::number_at;

// How many numbers a line has, and the place after its LF.
#[derive(Clone, Copy, Debug, PartialEq, Eq)]
pub struct Line {
    pub count: usize,
    pub next: usize,
}

// `out` changes only where the whole line is readable and its numbers have room.
pub fn numbers_at(text: &[u8], at: usize, out: &mut [u64]) -> Option<Line>
    ensures { ReadLine text.now at out.old out.new result }
{
    let line = count_at(text, at, out.len())?;
    store(text, at, &mut out[..line.count]);
    Some(line)
}

// Decides and counts.
fn count_at(text: &[u8], at: usize, room: usize) -> Option<Line>
    ensures { result ≡ answer (within room (line_at text.now at)) }
{
    if *text.get(at)? == LF {
        return Some(Line {
            count: 0,
            next: at + 1,
        });
    }
    // A step is a number: how many bytes it takes shows as it is read.
    let mut i = at;
    for before in 0..room {
        let end = number_at(text, i)?.end;
        let Some(byte) = text.get(end) else {
            return None; // no LF
        };
        let next = end + 1;
        match *byte {
            LF => {
                let count = before + 1;
                return Some(Line { count, next });
            }
            SPACE => i = next,
            _ => return None,
        }
    }
    None
}

// Stores the numbers of a line that is known to have as many as `out` has words.
fn store(text: &[u8], at: usize, out: &mut [u64])
    requires { HasCount (length out.old) (line_at text.now at) }
    ensures { out.new ≡ stored out.old (line_at text.now at) }
{
    let mut i = at;
    for word in out.iter_mut() {
        let Some(numeral) = number_at(text, i) else {
            return;
        };
        *word = numeral.value;
        i = numeral.end + 1;
    }
}
