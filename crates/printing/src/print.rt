// What an input prints: all of it is put on a page.
ghost use Rattle.std.specs.Prelude.{◌≡◌};
ghost use Rattle.texts.specs.Page.{Puts, Waits};
ghost use Rattle.printing.specs.Texts.{case_text, case_refused_text};
ghost use Rattle.checked.specs.Opening.{opening};
ghost use Rattle.printing.specs.Printed.{case_line, printed, Judges, Answers};

use super::input::{POOL_WORDS, TABLE_WORDS, one_at};
use super::shape::{Shape, TableLine};
use checked::opened::with_opened;
use grammar::refusal::{Refusal, Refused, number_of};
use texts::page::Page;

// "The program has room for 4,096 cells, so a longer case is refused 14."
const ROOM: usize = 4096;

// The grammar that an input asks about: its table and pool, and the start node.
#[derive(Clone, Copy)]
struct Asked<'a> {
    table: &'a [u64],
    pool: &'a [u64],
    start: usize,
}

// Prints all that an input asks for, on standard output. It answers how many bytes wait then: none.
pub fn print_all(text: &[u8]) -> usize
    ensures { result ≡ 0 }
{
    let mut page = Page::new();
    answer(text, &mut page);
    finish(text, &mut page);
    page.used
}

// As in `calling`: a trait over both would be longer than what they share.
//
// Writes out what waits. What is written is in no contract, so the caller has to show that it is the end of
// what the text prints.
fn finish(text: &[u8], page: &mut Page)
    requires { Waits (printed text.now) page.old }
    ensures { page.new ≡ record page.old { used = 0 } }
{
    page.flush();
}

// "Anything else prints only `unreadable`". All of it is read before anything is answered.
pub fn answer(text: &[u8], page: &mut Page)
    ensures { Puts (printed text.now) page.old page.new }
{
    let mut table = [0; TABLE_WORDS];
    let Some(first) = TableLine::read(text, &mut table) else {
        return page.unreadable();
    };
    // The pool's words are cleared only for a text whose table's line is read.
    let mut pool = [0; POOL_WORDS];
    let Some(shape) = Shape::read(text, first, &mut pool) else {
        return page.unreadable();
    };
    let asked = Asked {
        table: &table[..shape.table],
        pool: &pool[..shape.pool],
        start: shape.start,
    };
    judge(&asked, text, shape.from, page);
}

// The print of an accepted table's input is that of its numbers; of any other it is one line.
fn judge(asked: &Asked<'_>, text: &[u8], from: usize, page: &mut Page)
    ensures { Judges text.now from asked.now.table.now asked.now.pool.now asked.now.start page.old
        page.new }
{
    match opened(asked) {
        Ok(()) => put_cases(asked, text, from, page),
        Err(e) => page.refused_line(e.refusal, e.node),
    }
}

// "A refused table or start prints only `refused N at K`"
fn opened(asked: &Asked<'_>) -> Result<(), Refused>
    ensures { result ≡ opening asked.now.table.now asked.now.pool.now asked.now.start }
{
    with_opened(asked.table, asked.pool, asked.start, &mut [], |_, _| ())
}

// A line for each number from a place on.
fn put_cases(asked: &Asked<'_>, text: &[u8], from: usize, page: &mut Page)
    ensures { Answers text.now from asked.now.table.now asked.now.pool.now asked.now.start page.old
        page.new }
{
    let mut at = from;
    while let Some(one) = one_at(text, at) {
        put_answer(asked, one.number, page);
        at = one.next;
    }
}

// "Otherwise each number prints `case I: ` and its cells with single spaces, or `case I refused N`"
fn put_answer(asked: &Asked<'_>, n: u64, page: &mut Page)
    ensures { Puts (case_line asked.now.table.now asked.now.pool.now asked.now.start n) page.old
        page.new }
{
    let mut cells = [0u64; ROOM];
    match cases::write(asked.table, asked.pool, asked.start, n, &mut cells) {
        Ok(count) => put_case(n, &cells[..count], page),
        Err(e) => put_case_refused(n, e.refusal, page),
    }
}

fn put_case(n: u64, cells: &[u64], page: &mut Page)
    ensures { Puts (case_text n cells.now) page.old page.new }
{
    page.put_text(b"case ");
    page.put_number(n);
    page.put_text(b": ");
    page.put_line(cells);
}

fn put_case_refused(n: u64, refusal: Refusal, page: &mut Page)
    ensures { Puts (case_refused_text n refusal) page.old page.new }
{
    page.put_text(b"case ");
    page.put_number(n);
    page.put_text(b" refused ");
    page.put_number(number_of(refusal));
    page.put_text(b"\n");
}
