// The vectors of `read`, answered as the program `calls` answers.
#![tactic(auto)]

fn main() {
    calling::run();
}
