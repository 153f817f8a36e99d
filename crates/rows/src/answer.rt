// What a row call answers: the items and the cells used, or what stopped it.
ghost use Rattle.std.specs.Prelude.{◌≡◌};
ghost use Rattle.rows.specs.Row.{at_item};

use grammar::refusal::{Refusal, Refused};

// "Successful row calls return the items and cells used."
#[derive(Clone, Copy, Debug, PartialEq, Eq)]
pub struct Row {
    pub items: usize,
    pub cells: usize,
}

// The refusal, its node and its item.
#[derive(Clone, Copy, Debug, PartialEq, Eq)]
pub struct RowRefused {
    pub refusal: Refusal,
    pub node: u64,
    pub item: usize,
}

// "item 0 for refusals 1 to 11"
impl From<Refused> for RowRefused {
    ghost from_gives = { λ e r. r ≡ record { refusal = e.refusal; node = e.node; item = 0 } };

    fn from(refused: Refused) -> RowRefused {
        RowRefused {
            refusal: refused.refusal,
            node: refused.node,
            item: 0,
        }
    }
}

// What is found at an item, with the item where it is refused.
pub fn at_item<T>(found: Result<T, Refusal>, item: usize) -> Result<T, RowRefused>
    ensures { result ≡ at_item found item }
{
    found.map_err(|refusal| RowRefused {
        refusal,
        node: 0,
        item,
    })
}
