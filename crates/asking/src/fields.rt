// What the line of a call asks for behind the call's word, by the form of the line.
ghost use Rattle.asking.specs.Fields.{TakesCells, TakesRow};

use texts::line::numbers_at;

// Where the first field is in what follows a call's word: a space stands before it.
const FIELDS_AT: usize = 1;

// Where the row is among the fields: START alone stands before it, or START and ROOM.
pub const AFTER_START: usize = 1;

pub const AFTER_ROOM: usize = 2;

// As many words as a row has.
const MOST_ROW: usize = 70000;

pub const MOST_FIELDS: usize = AFTER_ROOM + MOST_ROW;

// As many words as a lent buffer has.
pub const MOST_ROOM: usize = 70000;

// START, and how many fields there are with the cells behind it.
#[derive(Clone, Copy, Debug, PartialEq, Eq)]
pub struct Cells {
    pub start: usize,
    pub count: usize,
}

// START, ROOM, and how many fields there are with the words behind them.
#[derive(Clone, Copy, Debug, PartialEq, Eq)]
pub struct Lent {
    pub start: usize,
    pub room: usize,
    pub count: usize,
}

// START CELL CELL ..
pub fn take_cells(rest: &[u8], fields: &mut [u64; MOST_FIELDS]) -> Option<Cells>
    ensures { TakesCells rest.now fields.old fields.new result }
{
    let count = numbers_at(rest, FIELDS_AT, fields)?.count;
    if count < AFTER_START {
        return None;
    }
    if AFTER_START + MOST_ROW < count {
        return None;
    }
    let start = fields[0] as usize;
    Some(Cells { start, count })
}

// START, ROOM and a row of words
pub fn take_row(rest: &[u8], fields: &mut [u64; MOST_FIELDS]) -> Option<Lent>
    ensures { TakesRow rest.now fields.old fields.new result }
{
    let count = numbers_at(rest, FIELDS_AT, fields)?.count;
    if count < AFTER_ROOM {
        return None;
    }
    let start = fields[0] as usize;
    let room = fields[1] as usize;
    if MOST_ROOM < room {
        return None;
    }
    Some(Lent { start, room, count })
}
