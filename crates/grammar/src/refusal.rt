// Refusals by name, and what a check answers: Ok, or the refusal and its node.
ghost use Rattle.std.specs.Prelude.{◌≡◌};
ghost use Rattle.grammar.specs.Refusals.{number_of};

// 01's refusals, by their numbers.
#[derive(Clone, Copy, Debug, PartialEq, Eq)]
pub enum Refusal {
    Length = 1,
    Kind = 2,
    SpareWord = 3,
    Reference = 4,
    Range = 5,
    Repeat = 6,
    UnsuitedPart = 7,
    TooLarge = 8,
    Unguarded = 9,
    ExceptOnCycle = 10,
    NoSuchStart = 11,
    NoSuchNumber = 12,
    TooDeep = 13,
    NoRoom = 14,
    NotACase = 15,
    NumberTooLarge = 16,
}

// A refused call has the refusal and its node.
#[derive(Clone, Copy, Debug, PartialEq, Eq)]
pub struct Refused {
    pub refusal: Refusal,
    pub node: u64,
}

// "a node for 1 to 10 (0 for every other refusal)": a refusal that comes with no node.
impl From<Refusal> for Refused {
    ghost from_gives = { λ r e. e ≡ record { refusal = r; node = 0 } };

    fn from(refusal: Refusal) -> Refused {
        Refused { refusal, node: 0 }
    }
}

#[tactic(auto, unfolding(crate::specs::Refusals::number_of))]
pub fn number_of(refusal: Refusal) -> u64
    ensures { result ≡ number_of refusal }
{
    refusal as u64
}
