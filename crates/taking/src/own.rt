// The cells that a visit takes itself. A cell that does not fit is not gone past.
ghost use Rattle.std.specs.Prelude.{◌+◌, ◌^◌, ◌≤◌, ◌<◌, length, take as front, drop, IfOk};
ghost use Rattle.grammar.specs.kinds.Below.{below_rule};
ghost use Rattle.grammar.specs.kinds.Nats.{nats_rule};
ghost use Rattle.grammar.specs.kinds.Pool.{pool_rule};
ghost use Rattle.taking.specs.Number.{word, exactly};
ghost use Rattle.taking.specs.Took.{Celled, TakenOwn};
ghost use Rattle.walk.specs.Lent.{pool_of};

use super::number::Unread;
use grammar::kinds::{below, pool};
use numbers::joined::cap;
use walk::lent::Lent;

// The next cell, less what the shifts above take off. 15: "a cell less than k under a shift"
fn cell_at(row: &[u64], at: usize, off: u64) -> Result<u64, Unread>
    ensures { Celled off row.now at result }
{
    let c = *row.get(at).ok_or(Unread::RowEnds)?;
    c.checked_sub(off).ok_or(Unread::NotACase)
}

// nats: any number
pub fn any(row: &[u64], off: u64, at: &mut usize) -> Result<Option<u64>, Unread>
    requires { (at.old ≤ length row.now) × (length row.now ≤ 65536) }
    ensures { TakenOwn nats_rule.tree off row.now at.old at.new (word result) }
{
    let c = cell_at(row, *at, off)?;
    *at += 1;
    Ok(cap(c))
}

// below: a number below a count
pub fn counted(a: u64, row: &[u64], off: u64, at: &mut usize) -> Result<u64, Unread>
    requires { (a ≤ 2 ^ 62) × (at.old ≤ length row.now) × (length row.now ≤ 65536) }
    ensures low { IfOk result (λ m. m < a) }
    ensures reads { TakenOwn (below_rule a).tree off row.now at.old at.new (word (exactly result)) }
{
    let c = cell_at(row, *at, off)?;
    let m = below::place_of(a, c).ok_or(Unread::NotACase)?;
    *at += 1;
    Ok(m)
}

// pool: the place of a word
pub fn listed(
    lent: &Lent,
    a: usize,
    b: usize,
    row: &[u64],
    off: u64,
    at: &mut usize,
) -> Result<u64, Unread>
    requires b_bound { (b ≤ 4096) × (a + b ≤ length (pool_of lent.now)) × (length (pool_of lent.now) ≤ 4096) }
    requires at_in_bounds { (at.old ≤ length row.now) × (length row.now ≤ 65536) }
    ensures { TakenOwn (pool_rule (front b (drop a (pool_of lent.now))) b).tree off
        row.now at.old at.new (word (exactly result)) }
{
    let c = cell_at(row, *at, off)?;
    let m = pool::place_of(lent.pool, a, b, c).ok_or(Unread::NotACase)?;
    *at += 1;
    Ok(m)
}
