// The rules of `numbers` at the numbers that documents 01, 000 and 001 print, and at the edges of a
// word. Each line has a rule, the sizes or the removed number, a number, and what it is split into
// or joined to.
#![tactic(auto)]

ghost use Rattle.std.specs.Prelude.{◌<◌, ◌≤◌, ◌^◌};
ghost use Rattle.numbers.specs.Joined.{limit};

use numbers::or::Part;
use numbers::size::ENDLESS;
use numbers::{cons, except, or, root, size};

// Standard output's number, as the system has it.
const STDOUT_FILENO: i32 = 1;

fn say(text: &[u8]) {
    io::write_all(STDOUT_FILENO, text);
}

fn say_number(n: u64) {
    say(b" ");
    io::print_decimal(STDOUT_FILENO, n);
}

fn say_size(s: u64) {
    if s < ENDLESS {
        say_number(s);
    } else {
        say(b" endless");
    }
}

fn say_joined(j: Option<u64>) {
    match j {
        Some(n) => say_number(n),
        None => say(b" big"),
    }
    say(b"\n");
}

fn say_measured(m: Option<u64>) {
    match m {
        Some(s) => say_size(s),
        None => say(b" past 2^62"),
    }
    say(b"\n");
}

fn root_line(n: u64) {
    say(b"root of");
    say_number(n);
    say(b":");
    say_number(root::root_of(n));
    say(b"\n");
}

fn cons_line(i: u64, j: u64, n: u64)
    requires { (0 < i) × (0 < j) }
{
    say(b"cons of");
    say_size(i);
    say(b" and");
    say_size(j);
    say(b" at");
    say_number(n);
    say(b":");
    let p = cons::split(i, j, n);
    say_number(p.first);
    say_number(p.second);
    say(b", joined");
    say_joined(cons::join(i, j, p.first, p.second));
}

fn pair_line(i: u64, j: u64, x: u64, y: u64) {
    say(b"cons of");
    say_size(i);
    say(b" and");
    say_size(j);
    say(b" from");
    say_number(x);
    say_number(y);
    say(b":");
    say_joined(cons::join(i, j, x, y));
}

fn or_line(s: u64, t: u64, n: u64) {
    say(b"or of");
    say_size(s);
    say(b" and");
    say_size(t);
    say(b" at");
    say_number(n);
    let p = or::split(s, t, n);
    let (tag, m) = match p {
        Part::First(m) => (0, m),
        Part::Second(m) => (1, m),
    };
    say(b":");
    say_number(tag);
    say_number(m);
    say(b", joined");
    say_joined(or::join(s, t, p));
}

fn except_line(b: u64, n: u64)
    requires { n ≤ limit }
{
    say(b"except");
    say_number(b);
    say(b" at");
    say_number(n);
    say(b":");
    say_number(except::split(b, n));
    say(b"\n");
}

fn size_lines(s: u64, t: u64) {
    say(b"sum of");
    say_size(s);
    say(b" and");
    say_size(t);
    say(b":");
    say_measured(size::sum(s, t));
    say(b"product of");
    say_size(s);
    say(b" and");
    say_size(t);
    say(b":");
    say_measured(size::product(s, t));
}

fn roots() {
    for n in [
        0,
        1,
        8,
        9,
        42,
        2147483648,
        4294967295,
        4611686018427387903,
        4611686018427387904,
        18446744065119617024,
        18446744065119617025,
        18446744073709551615,
    ] {
        root_line(n);
    }
}

// 000, section 3: the first pairs along the edges of ever-widening squares.
fn first_pairs() {
    for n in 0..12 {
        cons_line(ENDLESS, ENDLESS, n);
    }
}

fn pairs() {
    cons_line(ENDLESS, ENDLESS, 42);
    cons_line(ENDLESS, ENDLESS, 4611686018427387903);
    cons_line(ENDLESS, ENDLESS, 4611686018427387904);
    cons_line(ENDLESS, ENDLESS, 4611686018427388160);
    pair_line(ENDLESS, ENDLESS, 0, 2147483648);
    pair_line(ENDLESS, ENDLESS, 255, 2147483648);
    pair_line(ENDLESS, ENDLESS, 256, 2147483648);
    pair_line(ENDLESS, ENDLESS, 2147483647, 2147483647);
    pair_line(ENDLESS, ENDLESS, 4294967295, 4294967295);
    cons_line(2, 3, 1);
    cons_line(2, 2, 1);
    cons_line(3, 2, 5);
    cons_line(2, ENDLESS, 5);
    cons_line(ENDLESS, 2, 5);
    pair_line(ENDLESS, 4294967295, 4294967295, 4294967294);
}

fn choices() {
    for n in 0..7 {
        or_line(2, ENDLESS, n);
    }
    or_line(ENDLESS, 2, 4);
    or_line(2, 3, 4);
    or_line(ENDLESS, ENDLESS, 4611686018427387903);
    or_line(4611686018427387904, ENDLESS, 4611686018427387904);
}

fn main() {
    roots();
    first_pairs();
    pairs();
    choices();
    except_line(13, 12);
    except_line(13, 13);
    except_line(0, 4611686018427387903);
    size_lines(2, 3);
    size_lines(2147483648, 2147483648);
    size_lines(2147483648, 2147483649);
    size_lines(4611686018427387904, 4611686018427387904);
    size_lines(2, ENDLESS);
}
