// One case at the front of cells, on a checked table: "the walk, then 16".
ghost use Rattle.std.specs.Prelude.{◌≡◌, ◌≤◌, length, drop};
ghost use Rattle.taking.specs.Number.{why};
ghost use Rattle.checked.specs.Opened.{rules};
ghost use Rattle.checked.specs.Item.{front, whole, numbered, Walked, Stood};

use super::fits::{DEPTH, MOST_CELLS, room_for};
use super::opened::Opened;
use grammar::refusal::Refusal;
use numbers::size::LARGEST;
use taking::number::Unread;
use taking::source::Source;
use taking::take::take;
use walk::lent::Lent;

// The number of a case, and the place after its cells.
#[derive(Clone, Copy, Debug, PartialEq, Eq)]
pub struct Item {
    pub number: u64,
    pub next: usize,
}

// No `From`: it goes by what is left of the cells too.
//
// Why the walk read nothing: where the cells end, it is 14 if the case may have no more of them, else 15.
fn why(unread: Unread, full: bool) -> Refusal
    ensures { result ≡ why unread full }
{
    match unread {
        Unread::TooDeep => Refusal::TooDeep,
        Unread::NotACase => Refusal::NotACase,
        Unread::RowEnds => {
            if full {
                Refusal::NoRoom
            } else {
                Refusal::NotACase
            }
        }
    }
}

// "then 16": a number not below 2^62.
fn numbered(item: Item) -> Result<Item, Refusal>
    ensures { result ≡ numbered item }
{
    if LARGEST <= item.number {
        return Err(Refusal::NumberTooLarge);
    }
    Ok(item)
}

impl<'a> Opened<'a> {
    // What the walk reads from a place on: "The limit of 65,536 counts from the item's first cell". From
    // 2^62 on a number is not exact.
    fn walked(&self, cells: &[u64], at: usize) -> Result<Item, Refusal>
        requires { at ≤ length cells.now }
        ensures { Walked (rules self.now) self.now.start cells.now at result }
    {
        let left = cells.len() - at;
        let few = room_for(left);
        let from = Source {
            lent: Lent {
                pool: self.pool,
                plan: self.plan,
            },
            row: &cells[at..at + few],
        };
        let mut used: usize = 0;
        let number = match take(&from, self.start, DEPTH, 0, &mut used).result() {
            Ok(number) => number,
            Err(unread) => return Err(why(unread, MOST_CELLS <= left)),
        };
        Ok(Item {
            number: number.unwrap_or(LARGEST),
            next: at + used,
        })
    }

    // The case at a place, whatever stands behind it.
    pub fn item(&self, cells: &[u64], at: usize) -> Result<Item, Refusal>
        requires { at ≤ length cells.now }
        ensures { Stood (front (rules self.now) self.now.start (drop at cells.now)) cells.now at result }
    {
        numbered(self.walked(cells, at)?)
    }

    // All cells are one case: "Then cells left over (15, whole-case reading only), then 16."
    pub fn whole(&self, cells: &[u64]) -> Result<Item, Refusal>
        ensures { Stood (whole (rules self.now) self.now.start cells.now) cells.now 0 result }
    {
        let item = self.walked(cells, 0)?;
        if item.next < cells.len() {
            return Err(Refusal::NotACase);
        }
        numbered(item)
    }
}
