// The first pass of a call decides on one number, and is lent no cell that it could write.
ghost use Rattle.std.specs.Prelude.{◌≡◌};
ghost use Rattle.checked.specs.Fits.{fitted};
ghost use Rattle.checked.specs.Opened.{rules};

use super::fits::{DEPTH, asked, fit_of, room_for};
use super::opened::Opened;
use grammar::refusal::Refusal;
use laying::tally::tally;
use walk::lent::Lent;

impl<'a> Opened<'a> {
    // "12, then the walk with the room left"
    pub fn decided(&self, number: u64, room: usize) -> Result<usize, Refusal>
        ensures { result ≡ fitted (rules self.now) self.now.start number room }
    {
        if asked(self.plan[self.start].size, number) {
            let most = room_for(room);
            let lent = Lent {
                pool: self.pool,
                plan: self.plan,
            };
            let rest = tally(&lent, self.start, number, DEPTH, most);
            return fit_of(most, rest);
        }
        Err(Refusal::NoSuchNumber)
    }
}
