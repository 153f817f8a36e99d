// `check`: whether the table is a grammar.
ghost use Rattle.texts.specs.Page.{Puts};
ghost use Rattle.case_calls.specs.Check.{check_call};

use asking::calls::About;
use texts::page::Page;

// Nothing but LF stands behind its word.
pub fn answer(about: &About<'_>, rest: &[u8], page: &mut Page)
    ensures { Puts (check_call about.now.table.now about.now.pool.now rest.now) page.old page.new }
{
    if rest != b"\n".as_slice() {
        return page.unreadable();
    }
    match cases::check(about.table, about.pool) {
        Ok(()) => page.put_text(b"accepted\n"),
        Err(e) => page.refused_line(e.refusal, e.node),
    }
}
