// One case on a checked table, written whole or not at all.
ghost use Rattle.checked.specs.Fits.{Placed};
ghost use Rattle.checked.specs.Opened.{rules};

use super::fits::room_for;
use super::opened::Opened;
use grammar::refusal::Refusal;
use laying::sure::sure;

impl<'a> Opened<'a> {
    // The first pass decides and writes nothing; where every case of the start fits, there is nothing for
    // it to decide.
    pub fn write(&self, number: u64, cells: &mut [u64]) -> Result<usize, Refusal>
        ensures { Placed (rules self.now) self.now.start number cells.old cells.new result }
    {
        if !sure(self.plan, self.start, room_for(cells.len())) {
            self.decided(number, cells.len())?;
        }
        self.fits(number, cells)
    }
}
