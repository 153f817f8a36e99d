// "A reader hands out one case at a time from the front of a lent row": a struct of the lent row and a place,
// thin over the covered slice-and-place function.
ghost use Rattle.std.specs.Prelude.{◌≡◌, drop};
ghost use Rattle.checked.specs.Opened.{rules};
ghost use Rattle.rows.specs.Reader.{next, next_of, Within, stride_of, Strode, Moved};

use checked::opened::{Opened, with_opened};
use grammar::refusal::Refused;

// What a reader hands out: a number and the count of its cells.
#[derive(Clone, Copy, Debug, PartialEq, Eq)]
pub struct Next {
    pub number: u64,
    pub cells: usize,
}

// An answer, None at the row's end, and the place after it.
#[derive(Clone, Copy, Debug, PartialEq, Eq)]
pub struct Stride {
    pub answer: Result<Option<Next>, Refused>,
    pub at: usize,
}

// None at the row's end, else the case at the place.
fn next_case(opened: &Opened, row: &[u64], at: usize) -> Result<Option<Next>, Refused>
    ensures is { result ≡ next (rules opened.now) opened.now.start (drop at row.now) }
    ensures within { Within at result row.now }
{
    if row.len() <= at {
        return Ok(None);
    }
    let item = opened.item(row, at)?;
    Ok(Some(Next {
        number: item.number,
        cells: item.next - at,
    }))
}

fn next_at(
    table: &[u64],
    pool: &[u64],
    start: usize,
    row: &[u64],
    at: usize,
) -> Result<Option<Next>, Refused>
    ensures is { result ≡ next_of table.now pool.now start row.now at }
    ensures within { Within at result row.now }
{
    with_opened(
        table,
        pool,
        start,
        &mut [],
        |opened, _| next_case(opened, row, at),
    )?
}

// The covered function on a slice and a place: the answer and the next place together. At the row's end
// and after a refusal it stays, else it moves past the case at the place.
fn stride_at(table: &[u64], pool: &[u64], start: usize, row: &[u64], at: usize) -> Stride
    ensures { result ≡ stride_of table.now pool.now start row.now at }
{
    let answer = next_at(table, pool, start, row, at);
    let to = match answer {
        Ok(Some(next)) => at + next.cells,
        Ok(None) | Err(_) => at,
    };
    Stride { answer, at: to }
}

#[derive(Drop)]
pub struct Reader<'a> {
    pub row: &'a [u64],
    pub at: usize,
}

impl<'a> Reader<'a> {
    pub fn new(row: &'a [u64]) -> Reader<'a>
        ensures { (result.row ≡ row.entry) × (result.at ≡ 0) }
    {
        Reader { row, at: 0 }
    }

    // The answer at the reader's place, and the reader moves past it.
    pub fn next(
        &mut self,
        table: &[u64],
        pool: &[u64],
        start: usize,
    ) -> Result<Option<Next>, Refused>
        ensures { Moved table.now pool.now start self.old result self.new }
    {
        let at = self.at;
        let s = stride_at(table, pool, start, self.row, at);
        self.at = s.at;
        s.answer
    }
}

// A reader at any place of a row, asked once. Plain parameters: whoever calls it needs no walk.
pub fn read_at(table: &[u64], pool: &[u64], start: usize, row: &[u64], at: usize) -> Stride
    ensures { Strode table.now pool.now start row.now at result.answer result.at }
{
    let mut reader = Reader { row, at };
    let answer = reader.next(table, pool, start);
    Stride {
        answer,
        at: reader.at,
    }
}
