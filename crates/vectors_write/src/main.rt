// The vectors of `write` and `check`, answered as the program `calls` answers.
#![tactic(auto)]

fn main() {
    calling::run();
}
