// From cells to the number.
ghost use Rattle.std.specs.Prelude.{◌≡◌};
ghost use Rattle.cases.specs.Read.{read_of, read_says};

use checked::opened::with_opened;
use grammar::refusal::Refused;

// The number of a case, from all its cells, or the refusal and its node.
pub fn read(table: &[u64], pool: &[u64], start: usize, cells: &[u64]) -> Result<u64, Refused>
    ensures { read_of result ≡ read_says table.now pool.now start cells.now }
{
    let read = with_opened(table, pool, start, &mut [], |opened, _| opened.whole(cells))?;
    let item = read?;
    Ok(item.number)
}
