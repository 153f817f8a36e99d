// What a visit has read. It is one word that reads as a Result: every visit hands one back, and a word stays in a register.
// As an enum it kept the walk from being a loop once compiled, and L was read in 1.4 times the time.
ghost use Rattle.std.specs.Prelude.{◌≡◌, ℕ};
ghost use Rattle.taking.specs.Number.{exactly, word, Says};

use std::marker::Model;

// Why nothing is read. At the row's end it is 14 where the case may have no more cells, else 15.
#[derive(Clone, Copy, Debug, PartialEq, Eq)]
pub enum Unread {
    TooDeep,
    NotACase,
    RowEnds,
}

// Below this a word is the number itself. It stands for one past the limit, which is 16 at the end, however
// many excepts take one off.
const BIG: u64 = 9223372036854775808;

const DEEP: u64 = 9223372036854775809;

const UNFIT: u64 = 9223372036854775810;

const ENDED: u64 = 9223372036854775811;

#[derive(Clone, Copy, Debug, PartialEq, Eq)]
pub struct Number {
    word: u64,
}

impl Model for Number {
    ghost Value = { ℕ };

    ghost view = { λ n. n.word };

    ghost inverse = { λ w. record { word = w } };
}

impl Number {
    // A number that is known exactly, or that is BIG; or why there is none.
    pub fn of(read: Result<Option<u64>, Unread>) -> Number
        ensures { result ≡ word read }
    {
        match read {
            Ok(n) => Number {
                word: n.unwrap_or(BIG),
            },
            Err(Unread::TooDeep) => Number { word: DEEP },
            Err(Unread::NotACase) => Number { word: UNFIT },
            Err(Unread::RowEnds) => Number { word: ENDED },
        }
    }

    // A number that is always known exactly.
    pub fn exactly(read: Result<u64, Unread>) -> Number
        ensures { result ≡ word (exactly read) }
    {
        Number::of(read.map(Some))
    }

    pub fn result(&self) -> Result<Option<u64>, Unread>
        ensures { Says result self.now }
    {
        if self.word < BIG {
            return Ok(Some(self.word));
        }
        if self.word == BIG {
            return Ok(None);
        }
        if self.word == DEEP {
            return Err(Unread::TooDeep);
        }
        if self.word == UNFIT {
            return Err(Unread::NotACase);
        }
        Err(Unread::RowEnds)
    }
}
