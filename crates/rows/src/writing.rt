// From numbers to a row of cells.
ghost use Rattle.std.specs.Prelude.{◌≡◌};
ghost use Rattle.checked.specs.Opened.{rules};
ghost use Rattle.rows.specs.WriteRow.{in_turn, RowOver, WroteItems, WroteRow};

use super::answer::{Row, RowRefused, at_item};
use checked::opened::{Opened, with_opened};

// "items in order; the first that is refused stops the call": the first pass decides, and is lent no cell
// that it could write.
fn decide_row(opened: &Opened, numbers: &[u64], room: usize) -> Result<Row, RowRefused>
    ensures { result ≡ in_turn (rules opened.now) opened.now.start room numbers.now }
{
    let mut taken: usize = 0;
    for (item, number) in numbers.iter().enumerate() {
        taken += at_item(opened.decided(*number, room - taken), item)?;
    }
    Ok(Row {
        items: numbers.len(),
        cells: taken,
    })
}

// The second pass writes each case into what the ones before it leave of the buffer. It has a loop of its
// own: of cells that a closure of a common loop captures, nothing would be known at the end.
fn lay_row(opened: &Opened, numbers: &[u64], cells: &mut [u64]) -> Result<Row, RowRefused>
    ensures { RowOver (rules opened.now) opened.now.start numbers.now cells.old cells.new result }
{
    let mut used: usize = 0;
    for (item, number) in numbers.iter().enumerate() {
        used += at_item(opened.fits(*number, &mut cells[used..]), item)?;
    }
    Ok(Row {
        items: numbers.len(),
        cells: used,
    })
}

// No cell is written before the whole row is known to fit.
fn write_items(opened: &Opened, numbers: &[u64], cells: &mut [u64]) -> Result<Row, RowRefused>
    ensures { WroteItems (rules opened.now) opened.now.start numbers.now cells.old cells.new result }
{
    decide_row(opened, numbers, cells.len())?;
    lay_row(opened, numbers, cells)
}

// The cases of numbers, one after another, written into a lent buffer.
pub fn write_row(
    table: &[u64],
    pool: &[u64],
    start: usize,
    numbers: &[u64],
    cells: &mut [u64],
) -> Result<Row, RowRefused>
    ensures { WroteRow table.now pool.now start numbers.now cells.old cells.new result }
{
    with_opened(table, pool, start, cells, |opened, cells| {
        write_items(opened, numbers, cells)
    })?
}
