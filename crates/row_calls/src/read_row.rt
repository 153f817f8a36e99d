// `read-row START ROOM CELL ..`: the numbers of a row of cases, from its cells, in a lent buffer.
ghost use Rattle.std.specs.Prelude.{length};
ghost use Rattle.grammar.specs.Sizes.{rules_of};
ghost use Rattle.rows.specs.ReadRow.{gather, gotten, reads_row};
ghost use Rattle.row_calls.specs.Row.{PrintsRow};
ghost use Rattle.row_calls.specs.ReadRow.{read_row_text, read_row_leaves};

use asking::answers::{done_line, refused_at_item};
use asking::buffer::fill;
use asking::calls::{About, OnRow};
use texts::page::Page;

#[derive(Clone, Copy)]
pub struct ReadRow<'a> {
    pub about: About<'a>,
}

impl OnRow for ReadRow<'_> {
    ghost text = { λ c. read_row_text c.about.table.now c.about.pool.now };

    ghost leaves = { λ c. read_row_leaves c.about.table.now c.about.pool.now };

    fn call(&self, start: usize, room: usize, words: &[u64], buffer: &mut [u64], page: &mut Page) {
        read_cells(&self.about, start, words, &mut buffer[..room], page);
    }
}

// `write_row` has the same shape; what is called and what is printed differ.
fn read_cells(about: &About<'_>, start: usize, cells: &[u64], numbers: &mut [u64], page: &mut Page)
    ensures { PrintsRow
        (gotten (gather (rules_of about.now.table.now about.now.pool.now) start (length numbers.old) cells.now))
        (reads_row about.now.table.now about.now.pool.now start (length numbers.old) cells.now) numbers.old
        numbers.new page.old page.new }
{
    fill(numbers);
    match rows::read_row(about.table, about.pool, start, cells, numbers) {
        Ok(row) => done_line(row.items, row.cells, numbers, row.items, page),
        Err(e) => refused_at_item(e.refusal, e.node, e.item, numbers, page),
    }
}
