// `read START CELL CELL ..`: the number of a case, from its cells.
ghost use Rattle.case_calls.specs.Read.{read_text};

use asking::answers::number_line;
use asking::calls::{About, OnCells};
use texts::page::Page;

#[derive(Clone, Copy)]
pub struct Read<'a> {
    pub about: About<'a>,
}

impl OnCells for Read<'_> {
    ghost text = { λ c. read_text c.about.table.now c.about.pool.now };

    fn call(&self, start: usize, cells: &[u64], page: &mut Page) {
        match cases::read(self.about.table, self.about.pool, start, cells) {
            Ok(found) => number_line(found, page),
            Err(e) => page.refused_line(e.refusal, e.node),
        }
    }
}
