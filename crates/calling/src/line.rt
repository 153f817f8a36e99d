// Lines of bytes: where a line ends, and the word that it starts with.
ghost use Rattle.std.specs.Prelude.{◌≡◌, ◌≤◌, ◌==◌, ◌&&◌, not, length, position, take_while};
ghost use Rattle.calling.specs.Input.{after as after_of};

use texts::ascii::{LF, SPACE};

// The place after the line that starts at `at`.
pub fn after(text: &[u8], at: usize) -> usize
    requires { at ≤ length text.now }
    ensures { result ≡ after_of text.now at }
{
    match lf_at(&text[at..]) {
        Some(before) => at + before + 1,
        None => text.len(),
    }
}

// Where the first LF is.
fn lf_at(text: &[u8]) -> Option<usize>
    ensures { result ≡ position (λ b. b == 10) text.now }
{
    text.iter().position(|byte| *byte == LF)
}

// How many bytes stand before the first space, or before the line's LF.
pub fn word_size(line: &[u8]) -> usize
    ensures { result ≡ length (take_while (λ b. not (b == 32) && not (b == 10)) line.now) }
{
    line.iter()
        .take_while(|byte| **byte != SPACE && **byte != LF)
        .count()
}
