// `write-row START ROOM NUMBER ..`: the cells of numbers, one case after another, in a lent buffer.
ghost use Rattle.std.specs.Prelude.{length};
ghost use Rattle.grammar.specs.Sizes.{rules_of};
ghost use Rattle.rows.specs.WriteRow.{row_of, writes_row};
ghost use Rattle.row_calls.specs.Row.{PrintsRow};
ghost use Rattle.row_calls.specs.WriteRow.{write_row_text, write_row_leaves};

use asking::answers::{done_line, refused_at_item};
use asking::buffer::fill;
use asking::calls::{About, OnRow};
use texts::page::Page;

#[derive(Clone, Copy)]
pub struct WriteRow<'a> {
    pub about: About<'a>,
}

impl OnRow for WriteRow<'_> {
    ghost text = { λ c. write_row_text c.about.table.now c.about.pool.now };

    ghost leaves = { λ c. write_row_leaves c.about.table.now c.about.pool.now };

    fn call(&self, start: usize, room: usize, words: &[u64], buffer: &mut [u64], page: &mut Page) {
        write_cells(&self.about, start, words, &mut buffer[..room], page);
    }
}

// `read_row` has the same shape; what is called and what is printed differ.
fn write_cells(about: &About<'_>, start: usize, numbers: &[u64], cells: &mut [u64], page: &mut Page)
    ensures { PrintsRow
        (row_of (rules_of about.now.table.now about.now.pool.now) start numbers.now)
        (writes_row about.now.table.now about.now.pool.now start (length cells.old) numbers.now) cells.old
        cells.new page.old page.new }
{
    fill(cells);
    match rows::write_row(about.table, about.pool, start, numbers, cells) {
        Ok(row) => done_line(row.items, row.cells, cells, row.cells, page),
        Err(e) => refused_at_item(e.refusal, e.node, e.item, cells, page),
    }
}
