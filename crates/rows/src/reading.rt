// From a row of cells to numbers.
ghost use Rattle.std.specs.Prelude.{◌≡◌, set};
ghost use Rattle.checked.specs.Opened.{rules};
ghost use Rattle.rows.specs.ReadRow.{NumbersOver, GotItems, GotRow};

use super::answer::{Row, RowRefused, at_item};
use checked::copy::copy;
use checked::opened::{Opened, with_opened};
use grammar::refusal::Refusal;

// The room for numbers of a call's own. A row has no more items than cells: a row of up to 64 cells takes
// the small one, and does not pay for the large one.
const FEW: usize = 64;

const MANY: usize = 1024;

// A number at its place, where the lent buffer has that place.
fn keep(number: u64, item: usize, out: &mut [u64])
    ensures { out.new ≡ set out.old item number }
{
    if item < out.len() {
        out[item] = number;
    }
}

// "the walk, then 16, then 14 if the buffer of numbers is full": decides by the room, and stores as many
// of the numbers as the lent buffer holds.
fn gather_row(
    opened: &Opened,
    cells: &[u64],
    room: usize,
    out: &mut [u64],
) -> Result<Row, RowRefused>
    ensures { NumbersOver (rules opened.now) opened.now.start room cells.now out.old out.new result }
{
    let mut at: usize = 0;
    let mut items: usize = 0;
    // How many items there are shows only as their cells are read, so no iterator goes over them.
    while at < cells.len() {
        let item = at_item(opened.item(cells, at), items)?;
        if room <= items {
            return at_item(Err(Refusal::NoRoom), items);
        }
        keep(item.number, items, out);
        at = item.next;
        items += 1;
    }
    Ok(Row { items, cells: at })
}

// It decides over a scratch of the call's own, and stores only once the whole row is known to be readable:
// the numbers that it has kept, or else they are read again, over the buffer itself.
fn read_over(
    opened: &Opened,
    cells: &[u64],
    scratch: &mut [u64],
    numbers: &mut [u64],
) -> Result<Row, RowRefused>
    ensures { GotItems (rules opened.now) opened.now.start cells.now numbers.old numbers.new result }
{
    let row = gather_row(opened, cells, numbers.len(), scratch)?;
    if row.items <= scratch.len() {
        copy(scratch, row.items, numbers);
        return Ok(row);
    }
    gather_row(opened, cells, numbers.len(), numbers)
}

fn read_items(opened: &Opened, cells: &[u64], numbers: &mut [u64]) -> Result<Row, RowRefused>
    ensures { GotItems (rules opened.now) opened.now.start cells.now numbers.old numbers.new result }
{
    if cells.len() <= FEW {
        let mut scratch = [0u64; FEW];
        return read_over(opened, cells, &mut scratch, numbers);
    }
    let mut scratch = [0u64; MANY];
    read_over(opened, cells, &mut scratch, numbers)
}

// The numbers of a row of cases, stored into a lent buffer.
pub fn read_row(
    table: &[u64],
    pool: &[u64],
    start: usize,
    cells: &[u64],
    numbers: &mut [u64],
) -> Result<Row, RowRefused>
    ensures { GotRow table.now pool.now start cells.now numbers.old numbers.new result }
{
    with_opened(table, pool, start, numbers, |opened, numbers| {
        read_items(opened, cells, numbers)
    })?
}
