// One number on a checked table: "12, then the walk with the room left". This is the second pass, which writes.
ghost use Rattle.std.specs.Prelude.{◌≡◌, ℕ, ◌≤◌};
ghost use Rattle.numbers.specs.Size.{size_of};
ghost use Rattle.walk.specs.Room.{Left};
ghost use Rattle.checked.specs.Fits.{room_for, outcome, FitOver};
ghost use Rattle.checked.specs.Fits.{asked as is_asked};
ghost use Rattle.checked.specs.Opened.{rules};

use super::opened::Opened;
use grammar::refusal::Refusal;
use laying::lay::lay;
use laying::rest::Rest;
use numbers::size::LARGEST;
use walk::lent::Lent;

// "Depth is at most 200. A case has at most 65,536 cells"
pub const DEPTH: usize = 200;

pub const MOST_CELLS: usize = 65536;

// "a longer buffer to write into counts as that long for one case"
pub fn room_for(room: usize) -> usize
    ensures { result ≡ room_for room }
{
    room.min(MOST_CELLS)
}

// "Numbers asked for are below 2^62 and below the size."
pub fn asked(size: u64, number: u64) -> bool
    ensures { result ≡ is_asked (size_of size) number }
{
    number < LARGEST && number < size
}

// What a walk leaves of the room, as an answer: the count of the case's cells, or "of 13 and 14 the one first met".
pub fn fit_of(most: usize, rest: Rest) -> Result<usize, Refusal>
    requires { (k : ℕ) → rest ≡ Left k → k ≤ most }
    ensures { result ≡ outcome most rest }
{
    Ok(most - rest.result()?)
}

impl<'a> Opened<'a> {
    // It decides as the first pass does by the buffer's length, and writes what fits.
    pub fn fits(&self, number: u64, out: &mut [u64]) -> Result<usize, Refusal>
        ensures { FitOver (rules self.now) self.now.start number out.old out.new result }
    {
        if asked(self.plan[self.start].size, number) {
            let most = room_for(out.len());
            let lent = Lent {
                pool: self.pool,
                plan: self.plan,
            };
            let rest = lay(&lent, self.start, number, 0, DEPTH, &mut out[..most]);
            return fit_of(most, rest);
        }
        Err(Refusal::NoSuchNumber)
    }
}
