// `reader START CELL CELL ..`: the cases of a row, asked for one at a time.
ghost use Rattle.row_calls.specs.Reader.{asks_text};

use asking::answers::item_line;
use asking::calls::{About, OnCells};
use texts::page::Page;

#[derive(Clone, Copy)]
pub struct Reader<'a> {
    pub about: About<'a>,
}

impl OnCells for Reader<'_> {
    ghost text = { λ c. asks_text c.about.table.now c.about.pool.now };

    // Asks until the row's end or a refusal: an item moves the place on, so one of the two comes.
    fn call(&self, start: usize, cells: &[u64], page: &mut Page) {
        // A step is an item: how many cells it has shows as it is read.
        let mut at: usize = 0;
        loop {
            let stride = rows::read_at(self.about.table, self.about.pool, start, cells, at);
            let handed = stride.answer;
            match handed {
                Ok(Some(next)) => {
                    item_line(next.number, next.cells, page);
                    at = stride.at;
                }
                Ok(None) => {
                    return page.put_text(b"end\n");
                }
                Err(e) => {
                    return page.refused_line(e.refusal, e.node);
                }
            }
        }
    }
}
