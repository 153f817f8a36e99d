// 01's kinds: a file a kind, with the checks of its row in their order and then its size, and what its visits do.
// Which kind a word stands for is asked here, a line a kind: the check of its row, and the nodes that it names.
ghost use Rattle.std.specs.Prelude.{◌≡◌, true, false, List, ℕ, ◌*◌, ◌<◌, ◌≤◌, length, MatchResult};
ghost use Rattle.numbers.specs.Size.{Size, size_of, code_of};
ghost use Rattle.grammar.specs.Table.{nodes};
ghost use Rattle.grammar.specs.kinds.{used_words, kind_in};
ghost use Rattle.grammar.specs.KindWords.{word_of_kind};
ghost use Rattle.grammar.specs.Nodes.{node_with};
ghost use Rattle.grammar.specs.Steps.{steps_of};
ghost use Rattle.grammar.specs.Plan.{size_in, weighed};
ghost use Rattle.grammar.specs.Named.{named};

use super::entry::Entry;
use super::kind::Kind;
use super::named::{Named, none, one, two};
use super::refusal::Refusal;
use super::weighed::Weighed;
use numbers::size::ENDLESS;

pub mod again;
pub mod below;
pub mod cons;
pub mod dep;
pub mod except;
pub mod fix;
pub mod nats;
pub mod or;
pub mod pool;
pub mod shift;

// As many kinds as there are.
pub const KINDS: usize = 10;

// "One constant table says which of a and b each kind uses": yes or no for a and for b, a row a kind.
const USED: [[bool; 2]; KINDS] = [
    [true, false], // below: count
    [false, false], // nats: none
    [true, true], // pool: place, count
    [true, true], // shift: node, k
    [true, true], // or: nodes
    [true, true], // cons: nodes
    [true, true], // dep: node, place
    [true, true], // except: node, number
    [true, false], // fix: body
    [true, false], // again: fix
];

// What a visit shows: a tag cell, then a part at a number.
#[derive(Clone, Copy, Debug, PartialEq, Eq)]
pub struct Tagged {
    pub tag: u64,
    pub part: usize,
    pub number: u64,
}

// What a visit shows: two parts, each at a number.
#[derive(Clone, Copy, Debug, PartialEq, Eq)]
pub struct Two {
    pub first: usize,
    pub x: u64,
    pub second: usize,
    pub y: u64,
}

// One check of a row: what it asks, and the refusal where that does not hold.
pub fn asks(holds: bool, refusal: Refusal) -> Result<(), Refusal>
    ensures { MatchResult result (λ _. holds ≡ true) (λ r. (holds ≡ false) × (r ≡ refusal)) }
{
    if holds { Ok(()) } else { Err(refusal) }
}

// A size as it stands in the plan.
fn size_of(s: u64) -> u64
    ensures { result ≡ code_of (size_of s) }
{
    s.min(ENDLESS)
}

// The constant table, by value: made once for a whole check, and lent to each node.
pub fn used_words() -> [[bool; 2]; KINDS]
    ensures { result ≡ used_words }
{
    USED
}

// The row of a node whose spare words are zero, by its kind's word.
pub fn row(
    table: &[u64],
    pool: &[u64],
    plan: &[Entry],
    n: usize,
    kind: u64,
    a: u64,
    b: u64,
) -> Result<u64, Refusal>
    requires { (length table.now ≡ 3 * nodes table.now) × (n < nodes table.now) × (n ≤ length plan.now) }
    ensures { result ≡ weighed (kind_in kind) (node_with table.now pool.now n a b) (size_in plan.now) }
{
    row_of(table, pool, plan, n, Kind::try_from(kind)?, a as usize, b)
}

// The same of a kind that is known.
fn row_of(
    table: &[u64],
    pool: &[u64],
    plan: &[Entry],
    n: usize,
    kind: Kind,
    a: usize,
    b: u64,
) -> Result<u64, Refusal>
    requires { (length table.now ≡ 3 * nodes table.now) × (n < nodes table.now) × (n ≤ length plan.now) }
    ensures { result ≡ weighed (kind_in (word_of_kind kind)) (node_with table.now pool.now n a b) (size_in plan.now) }
{
    match kind {
        Kind::Below => below::check(a as u64),
        Kind::Nats => nats::check(),
        Kind::Pool => pool::check(pool, a, b as usize),
        Kind::Shift => shift::check(table, plan, n, a, b),
        Kind::Or => or::check(plan, n, a, b as usize),
        Kind::Cons => cons::check(plan, n, a, b as usize),
        Kind::Dep => dep::check(pool, plan, n, a, b as usize),
        Kind::Except => except::check(plan, n, a, b),
        Kind::Fix => fix::check(plan, n, a),
        Kind::Again => again::check(table, n, a),
    }
}

// The nodes that node n names; where not `guarded`, without those to which a step guards a cycle: yes or no, as the
// rules' own `steps` has it, so an enum would only name the two again.
#[tactic(auto, using(crate::proofs::KindSteps::steps_as), unfolding(crate::proofs::laws::rules))]
pub fn steps_of<'a>(w: &Weighed<'_, 'a>, n: usize, guarded: bool) -> Named<'a>
    requires { n < nodes w.now.table }
    ensures { named result ≡ steps_of guarded w.now.table w.now.pool (size_in w.now.plan) n }
{
    let table = w.table;
    let Ok(kind) = Kind::try_from(table[3 * n]) else {
        return none();
    };
    let a = table[3 * n + 1] as usize;
    let b = table[3 * n + 2] as usize;
    match kind {
        Kind::Below => none(),
        Kind::Nats => none(),
        Kind::Pool => none(),
        Kind::Shift => one(a),
        Kind::Or => or::steps(a, b, guarded),
        Kind::Cons => two(a, b),
        Kind::Dep => dep::steps(w.pool, w.plan, a, b),
        Kind::Except => one(a),
        Kind::Fix => one(a),
        Kind::Again => one(a),
    }
}

// Whether a kind is an except: refusal 10 asks those alone. A word that is no kind's is none.
pub fn skips(kind: u64) -> bool
    ensures { (a b : ℕ) (p : List ℕ) (z : ℕ → Size) → result ≡ ((kind_in kind).rule a b p z).skips }
{
    kind == Kind::Except as u64
}
