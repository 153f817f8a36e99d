// How many words a known table and its pool have.
ghost use Rattle.std.specs.Prelude.{◌≤◌};
ghost use Rattle.calling.specs.Input.{most_table_words, most_pool_words};

// More than the check accepts, so that its own limits can be tried from outside.
pub const MOST_TABLE_WORDS: usize = 1024;

pub const MOST_POOL_WORDS: usize = 5000;

#[derive(Clone, Copy)]
pub struct Sizes {
    pub table: usize,
    pub pool: usize,
    ghost table_fits: { table ≤ most_table_words },
    ghost pool_fits: { pool ≤ most_pool_words },
}
