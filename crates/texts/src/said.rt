// What every program prints.
ghost use Rattle.texts.specs.Page.{Puts};
ghost use Rattle.texts.specs.Said.{unreadable_text, refused_text, refused_line};

use super::page::Page;
use grammar::refusal::{Refusal, number_of};

impl Page {
    pub fn unreadable(&mut self)
        ensures { Puts unreadable_text self.old self.new }
    {
        self.put_text(b"unreadable\n");
    }

    // The line is left open, since some calls print more of a refusal.
    pub fn refused(&mut self, refusal: Refusal, node: u64)
        ensures { Puts (refused_text refusal node) self.old self.new }
    {
        self.put_text(b"refused ");
        self.put_number(number_of(refusal));
        self.put_text(b" at ");
        self.put_number(node);
    }

    pub fn refused_line(&mut self, refusal: Refusal, node: u64)
        ensures { Puts (refused_line refusal node) self.old self.new }
    {
        self.refused(refusal, node);
        self.put_text(b"\n");
    }
}
