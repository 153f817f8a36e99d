// One reader over a row, asked again and again: it hands out the row's cases in turn, and stays at the
// row's end and after a refusal. The table is README's session, its commands a rate or a mode.
#![tactic(auto)]

ghost use Rattle.reader.specs.Asked.{Asked};

use grammar::refusal::{Refused, number_of};
use rows::{Next, Reader};

// Standard output's number, as the system has it.
const STDOUT_FILENO: i32 = 1;

const SESSION: [u64; 27] = [
    0, 151, 0, 3, 0, 30, 2, 0, 4, 4, 1, 2, 0, 1, 0, 9, 8, 0, 5, 3, 5, 4, 4, 6, 8, 7, 0,
];

const MODES: [u64; 4] = [11, 22, 33, 44];

const START: usize = 8;

// What a reader answered, in turn.
#[derive(Drop)]
struct Four {
    first: Result<Option<Next>, Refused>,
    second: Result<Option<Next>, Refused>,
    third: Result<Option<Next>, Refused>,
    fourth: Result<Option<Next>, Refused>,
}

fn ask_four(table: &[u64], pool: &[u64], start: usize, row: &[u64]) -> Four
    ensures { Asked table.now pool.now start row.now result }
{
    let mut reader = Reader::new(row);
    let first = reader.next(table, pool, start);
    let second = reader.next(table, pool, start);
    let third = reader.next(table, pool, start);
    let fourth = reader.next(table, pool, start);
    Four {
        first,
        second,
        third,
        fourth,
    }
}

fn say(text: &[u8]) {
    io::write_all(STDOUT_FILENO, text);
}

fn say_number(n: u64) {
    io::print_decimal(STDOUT_FILENO, n);
}

fn say_answer(answer: Result<Option<Next>, Refused>) {
    match answer {
        Ok(Some(next)) => {
            say(b"number ");
            say_number(next.number);
            say(b", ");
            say_number(next.cells as u64);
            say(b" cells\n");
        }
        Ok(None) => say(b"end\n"),
        Err(e) => {
            say(b"refused ");
            say_number(number_of(e.refusal));
            say(b" at ");
            say_number(e.node);
            say(b"\n");
        }
    }
}

fn say_four(title: &[u8], start: usize, row: &[u64]) {
    say(title);
    let table = SESSION;
    let pool = MODES;
    let four = ask_four(&table, &pool, start, row);
    say_answer(four.first);
    say_answer(four.second);
    say_answer(four.third);
    say_answer(four.fourth);
}

fn main() {
    let two = [1, 0, 30, 0, 0, 0, 0];
    say_four(b"two cases, and the end twice:\n", START, &two);
    let broken = [1, 0, 30, 0, 0, 1, 1, 55, 0, 0];
    say_four(b"a case, and then a mode that is none:\n", START, &broken);
    say_four(b"the same row, and no such start:\n", 9, &broken);
}
