// The ten kinds, in the order of their words.
ghost use Rattle.grammar.specs.KindWords.{Reads};

use super::refusal::Refusal;

// 01's kinds, by name: a table has their words.
#[derive(Clone, Copy, Debug, PartialEq, Eq)]
pub enum Kind {
    Below = 0,
    Nats = 1,
    Pool = 2,
    Shift = 3,
    Or = 4,
    Cons = 5,
    Dep = 6,
    Except = 7,
    Fix = 8,
    Again = 9,
}

// 2: "kind known"
impl TryFrom<u64> for Kind {
    type Error = Refusal;

    ghost try_from_gives = { Reads };

    fn try_from(word: u64) -> Result<Self, Refusal> {
        match word {
            0 => Ok(Kind::Below),
            1 => Ok(Kind::Nats),
            2 => Ok(Kind::Pool),
            3 => Ok(Kind::Shift),
            4 => Ok(Kind::Or),
            5 => Ok(Kind::Cons),
            6 => Ok(Kind::Dep),
            7 => Ok(Kind::Except),
            8 => Ok(Kind::Fix),
            9 => Ok(Kind::Again),
            _ => Err(Refusal::Kind),
        }
    }
}
