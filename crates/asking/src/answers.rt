// What more than one call prints.
ghost use Rattle.std.specs.Prelude.{◌++◌, ◌≤◌, length, take};
ghost use Rattle.texts.specs.Page.{Puts};
ghost use Rattle.asking.specs.Texts.{number_line, item_text, refused_item, items_text, cells_text, end_text};

use super::buffer::changed_from;
use grammar::refusal::Refusal;
use texts::page::Page;

pub fn number_line(found: u64, page: &mut Page)
    ensures { Puts (number_line found) page.old page.new }
{
    page.put_text(b"number ");
    page.put_number(found);
    page.put_text(b"\n");
}

// An item of a reader.
pub fn item_line(found: u64, cells: usize, page: &mut Page)
    ensures { Puts (item_text found cells) page.old page.new }
{
    page.put_text(b"number ");
    page.put_number(found);
    page.put_text(b", ");
    page.put_number(cells as u64);
    page.put_text(b" cells\n");
}

// Ends a call's line: the call was to write the first `written` words of the buffer and no other.
pub fn end_line(buffer: &[u64], written: usize, page: &mut Page)
    ensures { Puts (end_text buffer.now written) page.old page.new }
{
    if changed_from(buffer, written) {
        page.put_text(b" CHANGED\n");
    } else {
        page.put_text(b"\n");
    }
}

// So many cells, and the words that the call wrote: the cells themselves, or their numbers.
pub fn listed_line(cells: usize, buffer: &[u64], written: usize, page: &mut Page)
    requires { written ≤ length buffer.now }
    ensures { Puts (cells_text cells (take written buffer.now) ++ end_text buffer.now written) page.old page.new }
{
    page.put_number(cells as u64);
    page.put_text(b" cells:");
    page.put_numbers(&buffer[..written]);
    end_line(buffer, written, page);
}

// The call used so many items and cells, and wrote the first `written` words of the buffer.
pub fn done_line(items: usize, cells: usize, buffer: &[u64], written: usize, page: &mut Page)
    requires { written ≤ length buffer.now }
    ensures { Puts (items_text items ++ (cells_text cells (take written buffer.now) ++ end_text buffer.now written))
        page.old page.new }
{
    page.put_number(items as u64);
    page.put_text(b" items, ");
    listed_line(cells, buffer, written, page);
}

// A refused call on a row was to write no word of the buffer.
pub fn refused_at_item(refusal: Refusal, node: u64, item: usize, buffer: &[u64], page: &mut Page)
    ensures { Puts (refused_item refusal node item ++ end_text buffer.now 0) page.old page.new }
{
    page.refused(refusal, node);
    page.put_text(b" item ");
    page.put_number(item as u64);
    end_line(buffer, 0, page);
}
