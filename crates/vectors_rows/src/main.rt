// The vectors of rows, and the cases that the documents print, answered as the program `calls` answers.
#![tactic(auto)]

fn main() {
    calling::run();
}
