// The calls of one form of a line: each takes the rest of its line, is made with what that asks for, and puts what came back on the page.
ghost use Rattle.std.specs.Prelude.{◌≡◌, ◌≤◌, ℕ, List, length};
ghost use Rattle.texts.specs.Page.{Puts};
ghost use Rattle.asking.specs.Fields.{most_room, fields_of, cells_of, with_cells, row_of, with_row, CellsCall, LentCall};

use super::fields::{AFTER_ROOM, AFTER_START, MOST_FIELDS, take_cells, take_row};
use texts::page::Page;

// The table that a call is about, and its pool.
#[derive(Clone, Copy)]
pub struct About<'a> {
    pub table: &'a [u64],
    pub pool: &'a [u64],
}

// A call that is made with START and cells.
pub trait OnCells {
    // What it prints.
    ghost text: { Self → ℕ → List ℕ → List ℕ };

    fn call(&self, start: usize, cells: &[u64], page: &mut Page)
        ensures { Puts (text self.now start cells.now) page.old page.new };
}

// A call that is made with START, a buffer that has ROOM words, and words.
pub trait OnRow {
    // What it prints, of START, ROOM and the words.
    ghost text: { Self → ℕ → ℕ → List ℕ → List ℕ };

    // What the buffer holds then, and held before.
    ghost leaves: { Self → ℕ → ℕ → List ℕ → List ℕ → List ℕ };

    // It is lent the first `room` words of the buffer.
    fn call(&self, start: usize, room: usize, words: &[u64], buffer: &mut [u64], page: &mut Page)
        requires { room ≤ length buffer.old }
        ensures puts { Puts (text self.now start room words.now) page.old page.new }
        ensures lent { buffer.new ≡ leaves self.now start room words.now buffer.old };
}

// START CELL CELL ..
pub fn answer_cells<C: OnCells>(
    call: &C,
    rest: &[u8],
    fields: &mut [u64; MOST_FIELDS],
    page: &mut Page,
)
    ensures { CellsCall (with_cells (C.text call.now) (cells_of (fields_of rest.now))) rest.now
        fields.old fields.new page.old page.new }
{
    let Some(asked) = take_cells(rest, fields) else {
        return page.unreadable();
    };
    let words: &[u64] = fields;
    call.call(asked.start, &words[AFTER_START..asked.count], page);
}

// START, ROOM and a row of words
pub fn answer_row<C: OnRow>(
    call: &C,
    rest: &[u8],
    fields: &mut [u64; MOST_FIELDS],
    buffer: &mut [u64],
    page: &mut Page,
)
    requires { most_room ≤ length buffer.old }
    ensures { LentCall (with_row (C.text call.now) (row_of (fields_of rest.now)))
        (C.leaves call.now) rest.now fields.old fields.new buffer.old buffer.new page.old
        page.new }
{
    let Some(asked) = take_row(rest, fields) else {
        return page.unreadable();
    };
    let words: &[u64] = fields;
    call.call(
        asked.start,
        asked.room,
        &words[AFTER_ROOM..asked.count],
        buffer,
        page,
    );
}
