// What calls are answered with: the table that they are about, and the words that they are lent.
ghost use Rattle.std.specs.Prelude.{◌≡◌, ◌<◌, ◌≤◌, length};
ghost use Rattle.texts.specs.Page.{Puts};
ghost use Rattle.calling.specs.Calls.{line_text};
ghost use Rattle.calling.specs.Desk.{known_in, known_of, Tables, Turns};
ghost use Rattle.calling.specs.Input.{table_at, after as after_of};

use super::calls::{Words, case_call};
use super::line::{after, word_size};
use super::sizes::{MOST_POOL_WORDS, MOST_TABLE_WORDS, Sizes};
use asking::calls::About;
use texts::line::numbers_at;
use texts::page::Page;

// Where a table is known, its words and those of its pool are at the front of `table` and `pool`.
#[derive(Drop)]
pub struct Desk {
    pub known: Option<Sizes>,
    pub table: [u64; MOST_TABLE_WORDS],
    pub pool: [u64; MOST_POOL_WORDS],
    pub words: Words,
}

impl Desk {
    // Answers the line at a place, with the two after it where it is a `table`, and hands back the place of the next.
    pub fn answer_line(&mut self, text: &[u8], at: usize, page: &mut Page) -> usize
        requires { at < length text.now }
        ensures { Turns text.now at self.old self.new page.old page.new result }
    {
        let next = after(text, at);
        let line = &text[at..next];
        if line == b"table\n".as_slice() {
            return self.take_table(text, next, page);
        }
        self.answer_call(line, page);
        next
    }

    // The two lines after `table`: both are taken, whether or not they can be read.
    fn take_table(&mut self, text: &[u8], at: usize, page: &mut Page) -> usize
        requires { at ≤ length text.now }
        ensures { Tables text.now at self.new page.old page.new result }
    {
        let middle = after(text, at);
        let next = after(text, middle);
        self.known = self.sizes_at(text, at, middle);
        if self.known.is_none() {
            page.unreadable();
        }
        next
    }

    fn sizes_at(&mut self, text: &[u8], at: usize, middle: usize) -> Option<Sizes>
        requires { middle ≡ after_of text.now at }
        ensures { known_in result self.new.table self.new.pool ≡ table_at text.now at }
    {
        let table = numbers_at(text, at, &mut self.table)?.count;
        let pool = numbers_at(text, middle, &mut self.pool)?.count;
        Some(Sizes { table, pool })
    }

    // A call about the known table.
    fn answer_call(&mut self, line: &[u8], page: &mut Page)
        ensures said { Puts (line_text (known_of self.old) line.now) page.old page.new }
        ensures kept { known_of self.new ≡ known_of self.old }
    {
        let Some(sizes) = self.known else {
            return page.unreadable();
        };
        let about = About {
            table: &self.table[..sizes.table],
            pool: &self.pool[..sizes.pool],
        };
        let size = word_size(line);
        case_call(&about, &line[..size], &line[size..], &mut self.words, page);
    }
}
