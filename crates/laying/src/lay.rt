// The writing walk. The buffer is the room: what is left of it is handed back.
ghost use Rattle.std.specs.Prelude.{[], ◌∷◌, ◌+◌, ◌*◌, ◌^◌, ◌≤◌, length};
ghost use Rattle.grammar.specs.Plan.{rule_in};
ghost use Rattle.walk.specs.Walk.{cell, walk};
ghost use Rattle.walk.specs.Room.{most};
ghost use Rattle.walk.specs.Laid.{Laid};
ghost use Rattle.walk.specs.Lent.{pool_of, plan_of};
ghost use Rattle.walk.specs.Plan.{Visits, Raised};
ghost use Rattle.laying.specs.Parts.{VisitsTwo, tag_walk, two_walks};

use super::rest::{Rest, Stop};
use grammar::entry::Entry;
use grammar::kind::Kind;
use grammar::kinds::{Tagged, Two, cons, dep, or, pool};
use numbers::except;
use walk::lent::Lent;

// One cell of the case.
fn put(c: u64, out: &mut [u64]) -> Rest
    requires { length out.old ≤ most }
    ensures { Laid (length out.old) (cell c ∷ []) out.old out.new result }
{
    if out.len() == 0 {
        return Rest::stopped(Stop::NoRoom);
    }
    out[0] = c;
    Rest::left(out.len() - 1)
}

// A tag cell, then a part.
#[cycle(both_lay_tagged)]
fn tagged(lent: &Lent, s: Tagged, left: usize, out: &mut [u64]) -> Rest
    requires visits { Visits (plan_of lent.now) (pool_of lent.now) s.part s.number }
    requires left_bound { (s.number + left ≤ 2 ^ 62 + 200) × (left ≤ 200) × (length out.old ≤ most) }
    ensures { Laid (length out.old)
        (tag_walk (plan_of lent.now) (pool_of lent.now) left s.tag s)
        out.old out.new result }
{
    if out.len() == 0 {
        return Rest::stopped(Stop::NoRoom);
    }
    out[0] = s.tag;
    lay(lent, s.part, s.number, 0, left, &mut out[1..])
}

// Two parts at two numbers. "The second part's cells start right after the first part's": the middle of
// the buffer that remains is lent on for them.
#[tactic(auto, using(crate::proofs::Lays::rest_within))]
#[cycle(both_lay_tagged)]
fn both(lent: &Lent, s: Two, left: usize, out: &mut [u64]) -> Rest
    requires visits_two { VisitsTwo (plan_of lent.now) (pool_of lent.now) s }
    requires left_bound { (s.x + left ≤ 2 ^ 62 + 200) × (s.y + left ≤ 2 ^ 62 + 200) × (left ≤ 200) × (length out.old ≤ most) }
    ensures { Laid (length out.old)
        (two_walks (plan_of lent.now) (pool_of lent.now) left s)
        out.old out.new result }
{
    match lay(lent, s.first, s.x, 0, left, out).result() {
        Ok(rest) => {
            let k = out.len() - rest;
            lay(lent, s.second, s.y, 0, left, &mut out[k..])
        }
        Err(stop) => Rest::stopped(stop),
    }
}

// "visits the node's parts at one depth more": the walk calls itself on parts, and the depth left falls.
// `up` is what the shifts above add to the first cell. Only a below, a nats or a shift stands under a
// shift, so every other kind has 0 there.
#[cycle(both_lay_tagged)]
pub fn lay(lent: &Lent, i: usize, n: u64, up: u64, left: usize, out: &mut [u64]) -> Rest
    requires visits { Visits (plan_of lent.now) (pool_of lent.now) i n × Raised (plan_of lent.now) i up }
    requires left_bound { (n + left ≤ 2 ^ 62 + 200) × (up + left * 2 ^ 32 ≤ 200 * 2 ^ 32) × (left ≤ 200) × (length out.old ≤ most) }
    ensures { Laid (length out.old)
        (walk (rule_in (plan_of lent.now) (pool_of lent.now)) left up i n)
        out.old out.new result }
{
    if left == 0 {
        return Rest::stopped(Stop::TooDeep);
    }
    let plan = lent.plan;
    let Entry { kind, a, b, .. } = plan[i];
    match kind {
        Kind::Below => put(n + up, out),
        Kind::Nats => put(n + up, out),
        Kind::Pool => put(pool::step(lent.pool, a, n), out),
        Kind::Shift => lay(lent, a, n, up + b, left - 1, out),
        Kind::Or => tagged(lent, or::step(plan, a, b as usize, n), left - 1, out),
        Kind::Cons => both(lent, cons::step(plan, a, b as usize, n), left - 1, out),
        Kind::Dep => both(
            lent,
            dep::step(lent.pool, plan, a, b as usize, n),
            left - 1,
            out,
        ),
        Kind::Except => lay(lent, a, except::split(b, n), 0, left - 1, out),
        Kind::Fix => lay(lent, a, n, 0, left - 1, out),
        Kind::Again => lay(lent, a, n, 0, left - 1, out),
    }
}
