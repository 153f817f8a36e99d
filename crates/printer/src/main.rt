// Prints the cases that standard input asks for, on standard output.
#![tactic(auto)]

use printing::INPUT_ROOM;
use texts::streams::STDIN_FILENO;

fn main() {
    let mut room = [0u8; INPUT_ROOM];
    let size = io::read_full(STDIN_FILENO, &mut room);
    printing::print_all(&room[..size]);
}
