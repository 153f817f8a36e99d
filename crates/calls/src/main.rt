// The program of the calls: each call of standard input is answered on standard output.
#![tactic(auto)]

fn main() {
    calling::run();
}
