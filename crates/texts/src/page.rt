// Bytes to print, gathered on a page so that no number costs a system call of its own.
ghost use Rattle.std.specs.Prelude.{◌≡◌, [], ◌∷◌};
ghost use Rattle.texts.specs.Decimal.{decimal};
ghost use Rattle.texts.specs.Line.{line_text, spaced};
ghost use Rattle.texts.specs.Page.{Puts, place as place_of};

use super::ascii::{BASE, DIGIT_0};
use super::streams::STDOUT_FILENO;
use itoa::Buffer;

pub const PAGE_BYTES: usize = 65536;

// The first `used` bytes wait.
#[derive(Drop)]
pub struct Page {
    pub bytes: [u8; PAGE_BYTES],
    pub used: usize,
}

impl Page {
    // Nothing waits on it.
    pub fn new() -> Page
        ensures { result.used ≡ 0 }
    {
        Page {
            bytes: [0; PAGE_BYTES],
            used: 0,
        }
    }

    // Writes out what waits. A write that fails is not tried again: what is put later goes on to the page.
    #[cold]
    #[inline(never)]
    pub fn flush(&mut self)
        ensures { self.new ≡ record self.old { used = 0 } }
    {
        let end = self.used.min(PAGE_BYTES);
        io::write_all(STDOUT_FILENO, &self.bytes[..end]);
        self.used = 0;
    }

    // Where the next byte goes: to the front again once a full page is written out.
    fn place(&mut self) -> usize
        ensures place { result ≡ place_of self.old.used }
        ensures kept { self.new.bytes ≡ self.old.bytes }
    {
        if PAGE_BYTES <= self.used {
            self.flush();
        }
        self.used
    }

    // A text that fits is copied whole: byte by byte takes a test of the page's end for each.
    #[inline]
    pub fn put_text(&mut self, text: &[u8])
        ensures { Puts text.now self.old self.new }
    {
        let at = self.used;
        if at <= PAGE_BYTES && text.len() <= PAGE_BYTES - at {
            let end = at + text.len();
            self.bytes[at..end].copy_from_slice(text);
            self.used = end;
            return;
        }
        self.put_bytes(text);
    }

    // A text that does not fit: the page is written out where it gets full, and the rest goes to its front.
    #[cold]
    #[inline(never)]
    fn put_bytes(&mut self, text: &[u8])
        ensures { Puts text.now self.old self.new }
    {
        for byte in text {
            self.put_byte(*byte);
        }
    }

    #[inline]
    fn put_byte(&mut self, byte: u8)
        ensures { Puts (byte ∷ []) self.old self.new }
    {
        let at = self.place();
        self.bytes[at] = byte;
        self.used = at + 1;
    }

    // Most numbers that are printed are one digit, which needs no buffer.
    pub fn put_number(&mut self, n: u64)
        ensures { Puts (decimal n) self.old self.new }
    {
        if n < BASE {
            return self.put_byte(DIGIT_0 + n as u8);
        }
        self.put_text(Buffer::new().format(n).as_bytes());
    }

    // Each number after a space.
    pub fn put_numbers(&mut self, numbers: &[u64])
        ensures { Puts (spaced numbers.now) self.old self.new }
    {
        for n in numbers {
            self.put_text(b" ");
            self.put_number(*n);
        }
    }

    // A line of numbers with single spaces.
    pub fn put_line(&mut self, numbers: &[u64])
        ensures { Puts (line_text numbers.now) self.old self.new }
    {
        if let [first, rest @ ..] = numbers {
            self.put_number(*first);
            self.put_numbers(rest);
        }
        self.put_text(b"\n");
    }
}
