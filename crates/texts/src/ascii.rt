// The bytes that texts are made of.
pub const LF: u8 = b'\n';

pub const SPACE: u8 = b' ';

pub const DIGIT_0: u8 = b'0';

pub const DIGIT_9: u8 = b'9';

// Numbers are decimal.
pub const BASE: u64 = 10;
