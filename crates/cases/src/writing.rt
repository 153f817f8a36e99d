// From a number to cells.
ghost use Rattle.cases.specs.Write.{Wrote};

use checked::opened::with_opened;
use grammar::refusal::Refused;

// The case of a number, written into a lent buffer: the count of its cells, or the refusal and its node.
pub fn write(
    table: &[u64],
    pool: &[u64],
    start: usize,
    number: u64,
    cells: &mut [u64],
) -> Result<usize, Refused>
    ensures { Wrote table.now pool.now start number cells.old cells.new result }
{
    let written = with_opened(table, pool, start, cells, |opened, cells| {
        opened.write(number, cells)
    })?;
    let count = written?;
    Ok(count)
}
