// What a walk leaves of the room. It is one word that reads as a Result: every visit hands one back, and a word stays in a
// register. As `Result<usize, Stop>` it went through memory, and L was written in 1.7 times the time, 1.4 times the instructions.
// `Number` of `taking` is such a word too, and says other things.
ghost use Rattle.std.specs.Prelude.{◌≡◌, ◌^◌, ◌<◌};
ghost use Rattle.grammar.specs.declared.refusal.Refusal.{Refusal};
ghost use Rattle.walk.specs.Room.{RoomLeft, Left};
ghost use Rattle.walk.specs.Laid.{left_of};
ghost use Rattle.laying.specs.Rest.{met, refusal_of, room_left, word_of};

use grammar::refusal::Refusal;
use std::marker::Model;

// "of 13 and 14 the one first met in walk order"
#[derive(Clone, Copy, Debug, PartialEq, Eq)]
pub enum Stop {
    TooDeep,
    NoRoom,
}

impl From<Stop> for Refusal {
    ghost from_gives = { λ s r. r ≡ refusal_of s };

    fn from(stop: Stop) -> Refusal {
        match stop {
            Stop::TooDeep => Refusal::TooDeep,
            Stop::NoRoom => Refusal::NoRoom,
        }
    }
}

// Below this a word is what is left of the room.
const TOO_DEEP: usize = 9223372036854775808;

const NO_ROOM: usize = 9223372036854775809;

#[derive(Clone, Copy, Debug, PartialEq, Eq)]
pub struct Rest {
    word: usize,
}

// The word is the one for what it says, so that what it says gives it back: a value that is copied or compared has to.
impl Model for Rest {
    ghost Value = { RoomLeft };

    ghost view = { λ r. left_of r.word };

    ghost invariant = { λ r. word_of (left_of r.word) ≡ r.word };

    ghost inverse = { λ r. record { word = word_of r } };

    ghost inverse_ok = { λ r h i. record { word = h i } };
}

impl Rest {
    pub fn left(room: usize) -> Rest
        requires { room < 2 ^ 63 }
        ensures { result ≡ Left room }
    {
        Rest { word: room }
    }

    pub fn stopped(stop: Stop) -> Rest
        ensures { result ≡ met stop }
    {
        match stop {
            Stop::TooDeep => Rest { word: TOO_DEEP },
            Stop::NoRoom => Rest { word: NO_ROOM },
        }
    }

    pub fn result(&self) -> Result<usize, Stop>
        ensures { room_left result ≡ self.now }
    {
        if self.word < TOO_DEEP {
            return Ok(self.word);
        }
        if self.word == TOO_DEEP {
            return Err(Stop::TooDeep);
        }
        Err(Stop::NoRoom)
    }
}
