// The calls by their words. Each is handed the rest of its line: a space before each field, and LF.
ghost use Rattle.texts.specs.Page.{Puts};
ghost use Rattle.calling.specs.Calls.{row_calls, calls, chosen};

use asking::calls::{About, answer_cells, answer_row};
use asking::fields::{MOST_FIELDS, MOST_ROOM};
use case_calls::check;
use case_calls::read::Read;
use case_calls::write::Write;
use row_calls::read_row::ReadRow;
use row_calls::reader::Reader;
use row_calls::write_row::WriteRow;
use texts::page::Page;

// The words that calls are lent: for the fields of their lines, and for a buffer.
#[derive(Drop)]
pub struct Words {
    pub fields: [u64; MOST_FIELDS],
    pub buffer: [u64; MOST_ROOM],
}

// The calls on one case, a test for each in the order of `calls`: a `match` on the words says no more.
pub fn case_call(about: &About<'_>, word: &[u8], rest: &[u8], lent: &mut Words, page: &mut Page)
    ensures { Puts (chosen word.now (calls about.now.table.now about.now.pool.now rest.now))
        page.old page.new }
{
    if word == b"check".as_slice() {
        return check::answer(about, rest, page);
    }
    if word == b"write".as_slice() {
        let write = Write { about: *about };
        return answer_row(&write, rest, &mut lent.fields, &mut lent.buffer, page);
    }
    if word == b"read".as_slice() {
        return answer_cells(&Read { about: *about }, rest, &mut lent.fields, page);
    }
    row_call(about, word, rest, lent, page);
}

// The calls on rows, tested as those above.
fn row_call(about: &About<'_>, word: &[u8], rest: &[u8], lent: &mut Words, page: &mut Page)
    ensures { Puts (chosen word.now (row_calls about.now.table.now about.now.pool.now rest.now))
        page.old page.new }
{
    if word == b"write-row".as_slice() {
        let write_row = WriteRow { about: *about };
        return answer_row(&write_row, rest, &mut lent.fields, &mut lent.buffer, page);
    }
    if word == b"read-row".as_slice() {
        let read_row = ReadRow { about: *about };
        return answer_row(&read_row, rest, &mut lent.fields, &mut lent.buffer, page);
    }
    if word == b"reader".as_slice() {
        return answer_cells(&Reader { about: *about }, rest, &mut lent.fields, page);
    }
    page.unreadable();
}
