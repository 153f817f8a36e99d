// Many inputs of the printing program in one: each is a line with a count of bytes, and then so many
// bytes. What an input prints is followed by a line `--`.
#![tactic(auto)]

use texts::numeral::number_at;
use texts::streams::{STDIN_FILENO, STDOUT_FILENO};

const INPUT_ROOM: usize = 1048576;

fn main() {
    let mut room = [0u8; INPUT_ROOM];
    print_input(&mut room);
}

// The room is lent, and not this function's own: of a local array a proof writes out every byte.
fn print_input(room: &mut [u8; INPUT_ROOM]) {
    let size = io::read_full(STDIN_FILENO, room);
    let text: &[u8] = room;
    print_each(&text[..size]);
}

fn print_each(text: &[u8]) {
    let mut at = 0;
    // A step is an input: how many bytes it takes shows as its count is read, so no iterator goes over them.
    while at < text.len() {
        let Some(count) = number_at(text, at) else {
            io::write_all(STDOUT_FILENO, b"no count\n");
            return;
        };
        if text.len() <= count.end {
            io::write_all(STDOUT_FILENO, b"no count\n");
            return;
        }
        let start = count.end + 1;
        let size = count.value as usize;
        if text.len() - start < size {
            io::write_all(STDOUT_FILENO, b"cut off\n");
            return;
        }
        let next = start + size;
        printing::print_all(&text[start..next]);
        io::write_all(STDOUT_FILENO, b"--\n");
        at = next;
    }
}
