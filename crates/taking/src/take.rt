// The reading walk: a line a kind, and a function for each shape of visits that reads parts.
// Source and place go apart: what is read from stays as it is, and of a struct with the place each clause would have to say so.
ghost use Rattle.std.specs.Prelude.{◌+◌, ◌-◌, ◌*◌, ◌^◌, ◌≤◌, ◌<◌, length};
ghost use Rattle.grammar.specs.Plan.{rule_in};
ghost use Rattle.grammar.specs.kinds.Or.{or as or_kind};
ghost use Rattle.grammar.specs.kinds.Cons.{cons as cons_kind};
ghost use Rattle.grammar.specs.kinds.Dep.{dep as dep_kind};
ghost use Rattle.grammar.specs.kinds.Except.{except as except_kind};
ghost use Rattle.walk.specs.Run.{run};
ghost use Rattle.walk.specs.Plan.{Reading, Choosing};
ghost use Rattle.taking.specs.Number.{word};
ghost use Rattle.taking.specs.Took.{Taken, TakenBy, Roomy};
ghost use Rattle.walk.specs.Lent.{pool_of, plan_of};

use super::number::{Number, Unread};
use super::own::{any, counted, listed};
use super::source::Source;
use grammar::entry::Entry;
use grammar::kind::Kind;
use grammar::kinds::{cons, dep, except, or};

// An or's tags, 0 and 1.
const TAGS: u64 = 2;

// The shapes below share their parameters, not their bodies.
//
// or: a tag, and the part that it leads to. 15: "a tag above 1"
#[cycle(both_chosen_tagged_take_without)]
fn tagged(
    from: &Source,
    a: usize,
    b: usize,
    left: usize,
    off: u64,
    at: &mut usize,
) -> Result<Option<u64>, Unread>
    requires reading { Reading (plan_of from.now.lent) (pool_of from.now.lent) a × Reading (plan_of from.now.lent) (pool_of from.now.lent) b }
    requires left_bound { (left ≤ 200) × (at.old ≤ length from.now.row.now) × (length from.now.row.now ≤ 65536) }
    ensures { TakenBy or_kind (plan_of from.now.lent) (pool_of from.now.lent) a b left off
        from.now.row.now at.old at.new (word result) }
{
    let tag = counted(TAGS, from.row, off, at)?;
    let s = or::sides_of(tag, a, b);
    match take(from, s.part, left, 0, at).result()? {
        Some(m) => Ok(or::join(from.lent.plan, tag, s.other, m)),
        None => Ok(None),
    }
}

// cons: both parts
#[cycle(both_chosen_tagged_take_without)]
fn both(
    from: &Source,
    a: usize,
    b: usize,
    left: usize,
    off: u64,
    at: &mut usize,
) -> Result<Option<u64>, Unread>
    requires reading { Reading (plan_of from.now.lent) (pool_of from.now.lent) a × Reading (plan_of from.now.lent) (pool_of from.now.lent) b }
    requires roomy { Roomy left off at.old from.now.row.now }
    ensures { TakenBy cons_kind (plan_of from.now.lent) (pool_of from.now.lent) a b left off
        from.now.row.now at.old at.new (word result) }
{
    let first = take(from, a, left, off, at).result()?;
    let second = take(from, b, left, 0, at).result()?;
    match first {
        Some(x) => match second {
            Some(y) => Ok(cons::join(from.lent.plan, a, b, x, y)),
            None => Ok(None),
        },
        None => Ok(None),
    }
}

// dep: the first part, and the second that its number chooses. That number is below 256, so never past the limit.
#[cycle(both_chosen_tagged_take_without)]
fn chosen(
    from: &Source,
    a: usize,
    b: usize,
    left: usize,
    off: u64,
    at: &mut usize,
) -> Result<Option<u64>, Unread>
    requires choosing { Choosing (plan_of from.now.lent) (pool_of from.now.lent) a b }
    requires roomy { Roomy left off at.old from.now.row.now }
    ensures { TakenBy dep_kind (plan_of from.now.lent) (pool_of from.now.lent) a b left off
        from.now.row.now at.old at.new (word result) }
{
    match take(from, a, left, off, at).result()? {
        Some(x) => {
            let c = from.lent.pool[b + x as usize] as usize;
            match take(from, c, left, 0, at).result()? {
                Some(y) => Ok(dep::join(from.lent.pool, from.lent.plan, a, b, x, y)),
                None => Ok(None),
            }
        }
        None => Ok(None),
    }
}

// except: a part at another number than b. 15: "the case an except removed (met after its last cell)"
#[cycle(both_chosen_tagged_take_without)]
fn without(
    from: &Source,
    a: usize,
    b: u64,
    left: usize,
    off: u64,
    at: &mut usize,
) -> Result<Option<u64>, Unread>
    requires reading { Reading (plan_of from.now.lent) (pool_of from.now.lent) a × (b < 2 ^ 62) }
    requires roomy { Roomy left off at.old from.now.row.now }
    ensures { TakenBy except_kind (plan_of from.now.lent) (pool_of from.now.lent) a b left off
        from.now.row.now at.old at.new (word result) }
{
    match take(from, a, left, off, at).result()? {
        Some(m) => {
            if m == b {
                return Err(Unread::NotACase);
            }
            Ok(except::join(b, m))
        }
        None => Ok(None),
    }
}

// "Reading walks the same nodes from cells": the walk calls itself on parts, and the depth left falls.
// `off` is what the shifts above take off the first cell.
#[cycle(both_chosen_tagged_take_without)]
pub fn take(from: &Source, i: usize, left: usize, off: u64, at: &mut usize) -> Number
    requires reading { Reading (plan_of from.now.lent) (pool_of from.now.lent) i }
    requires roomy { Roomy left off at.old from.now.row.now }
    ensures { Taken (2 ^ 62 + (201 - left)) (run (rule_in (plan_of from.now.lent) (pool_of from.now.lent)) left off i)
        from.now.row.now at.old at.new result }
{
    if left == 0 {
        return Number::of(Err(Unread::TooDeep));
    }
    let plan = from.lent.plan;
    let Entry { kind, a, b, .. } = plan[i];
    match kind {
        Kind::Below => Number::exactly(counted(a as u64, from.row, off, at)),
        Kind::Nats => Number::of(any(from.row, off, at)),
        Kind::Pool => Number::exactly(listed(&from.lent, a, b as usize, from.row, off, at)),
        Kind::Shift => take(from, a, left - 1, off + b, at),
        Kind::Or => Number::of(tagged(from, a, b as usize, left - 1, off, at)),
        Kind::Cons => Number::of(both(from, a, b as usize, left - 1, off, at)),
        Kind::Dep => Number::of(chosen(from, a, b as usize, left - 1, off, at)),
        Kind::Except => Number::of(without(from, a, b, left - 1, off, at)),
        Kind::Fix => take(from, a, left - 1, off, at),
        Kind::Again => take(from, a, left - 1, off, at),
    }
}
