// `write START ROOM NUMBER`: the cells of a number, in a lent buffer.
ghost use Rattle.case_calls.specs.Write.{PrintsCase, alone, case_text, write_leaves};

use asking::answers::{end_line, listed_line};
use asking::buffer::fill;
use asking::calls::{About, OnRow};
use texts::page::Page;

#[derive(Clone, Copy)]
pub struct Write<'a> {
    pub about: About<'a>,
}

impl OnRow for Write<'_> {
    ghost text = { λ c. alone (case_text c.about.table.now c.about.pool.now) };

    ghost leaves = { λ c. write_leaves c.about.table.now c.about.pool.now };

    fn call(&self, start: usize, room: usize, words: &[u64], buffer: &mut [u64], page: &mut Page) {
        if words.len() != 1 {
            return page.unreadable();
        }
        write_case(&self.about, start, words[0], &mut buffer[..room], page);
    }
}

fn write_case(about: &About<'_>, start: usize, number: u64, cells: &mut [u64], page: &mut Page)
    ensures { PrintsCase about.now.table.now about.now.pool.now start number cells.old cells.new
        page.old page.new }
{
    fill(cells);
    match cases::write(about.table, about.pool, start, number, cells) {
        Ok(count) => listed_line(count, cells, count, page),
        Err(e) => {
            page.refused(e.refusal, e.node);
            end_line(cells, 0, page);
        }
    }
}
