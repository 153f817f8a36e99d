// What an input asks for, read line after line.
ghost use Rattle.std.specs.Prelude.{◌≤◌};
ghost use Rattle.printing.specs.Input.{table_words, pool_words};

use super::input::{INPUT_ROOM, POOL_WORDS, TABLE_WORDS, one_at, one_each};
use texts::line::numbers_at;

// What the first line tells: how many words the table has, and the place of the pool's line.
#[derive(Clone, Copy)]
pub struct TableLine {
    pub count: usize,
    pub next: usize,
    ghost fits: { count ≤ table_words },
}

impl TableLine {
    ghost use Rattle.printing.specs.Shape.{Tabled};

    // "table words", in a text of "at most 65,536 bytes".
    pub fn read(text: &[u8], table: &mut [u64; TABLE_WORDS]) -> Option<TableLine>
        ensures { Tabled text.now table.new result }
    {
        if INPUT_ROOM <= text.len() {
            return None;
        }
        let line = numbers_at(text, 0, table)?;
        if line.count == 0 {
            return None;
        }
        Some(TableLine {
            count: line.count,
            next: line.next,
        })
    }
}

// How many words the table and its pool have, the start node, and the place from which the numbers stand.
#[derive(Clone, Copy)]
pub struct Shape {
    pub table: usize,
    pub pool: usize,
    pub start: usize,
    pub from: usize,
    ghost table_fits: { table ≤ table_words },
    ghost pool_fits: { pool ≤ pool_words },
}

impl Shape {
    ghost use Rattle.printing.specs.Shape.{Behind};

    // Behind the table's line: "pool words (this line alone may be empty), start node, then one number a line"; with
    // anything else a text has no shape.
    pub fn read(text: &[u8], first: TableLine, pool: &mut [u64; POOL_WORDS]) -> Option<Shape>
        ensures { Behind text.now first pool.new result }
    {
        let pool_line = numbers_at(text, first.next, pool)?;
        let start = one_at(text, pool_line.next)?;
        if !one_each(text, start.next) {
            return None;
        }
        Some(Shape {
            table: first.count,
            pool: pool_line.count,
            start: start.number as usize,
            from: start.next,
        })
    }
}
