// Every public call from a shell: the lines of an input, and what each call prints. Nothing is
// decided here: words are lent, a call is made, and what came back is printed.
#![tactic(auto)]

mod calls;
mod desk;
mod line;
mod sizes;

ghost use Rattle.std.specs.Prelude.{◌≡◌};
ghost use Rattle.texts.specs.Page.{Puts, Waits};
ghost use Rattle.calling.specs.Input.{printed};
ghost use Rattle.calling.specs.Line.{readable as is_readable};

use asking::fields::{MOST_FIELDS, MOST_ROOM};
use calls::Words;
use desk::Desk;
use sizes::{MOST_POOL_WORDS, MOST_TABLE_WORDS};
use texts::ascii::LF;
use texts::page::Page;
use texts::streams::STDIN_FILENO;

// One byte more than the longest input, to see that an input is longer: it is unreadable as a whole.
pub const INPUT_ROOM: usize = 4194305;

// Answers standard input on standard output. It answers how many bytes wait then: none.
pub fn run() -> usize
    ensures { result ≡ 0 }
{
    let mut room = [0; INPUT_ROOM];
    answer_input(&mut room)
}

// The room is lent, and not this function's own: of a local array a proof writes out every byte.
fn answer_input(room: &mut [u8; INPUT_ROOM]) -> usize
    ensures { result ≡ 0 }
{
    let size = io::read_full(STDIN_FILENO, room);
    print_all(&room[..size])
}

// Prints all that an input asks for, on standard output. It answers how many bytes wait then: none.
pub fn print_all(text: &[u8]) -> usize
    ensures { result ≡ 0 }
{
    let mut page = Page::new();
    answer(text, &mut page);
    finish(text, &mut page);
    page.used
}

// Writes out what waits. What is written is in no contract, so the caller has to show that it is the end of
// what the text prints. `printing` has the same: a trait over both would be longer than what they share.
fn finish(text: &[u8], page: &mut Page)
    requires { Waits (printed text.now) page.old }
    ensures { page.new ≡ record page.old { used = 0 } }
{
    page.flush();
}

// Answers each line of an input.
pub fn answer(text: &[u8], page: &mut Page)
    ensures { Puts (printed text.now) page.old page.new }
{
    if !readable(text) {
        return page.unreadable();
    }
    let words = Words {
        fields: [0; MOST_FIELDS],
        buffer: [0; MOST_ROOM],
    };
    let mut desk = Desk {
        known: None,
        table: [0; MOST_TABLE_WORDS],
        pool: [0; MOST_POOL_WORDS],
        words,
    };
    let mut at = 0;
    // A step is a call's lines: how many bytes they take shows as they are read, so no iterator goes over them.
    while at < text.len() {
        at = desk.answer_line(text, at, page);
    }
}

// An input of no bytes has no line that could lack its LF.
fn readable(text: &[u8]) -> bool
    ensures { result ≡ is_readable text.now }
{
    if INPUT_ROOM <= text.len() {
        return false;
    }
    match text.last() {
        Some(byte) => *byte == LF,
        None => true,
    }
}
