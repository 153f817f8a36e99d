// The pass that decides by the room and writes nothing. What a cell is does not matter to it.
// One walk for it and for `lay`, over a trait of outputs, would lend on the middle of an output: that is an associated
// type with a lifetime of its own, which Rattle does not have.
ghost use Rattle.std.specs.Prelude.{◌≡◌, [], ◌∷◌, ◌+◌, ◌^◌, ◌≤◌};
ghost use Rattle.grammar.specs.Plan.{rule_in};
ghost use Rattle.walk.specs.Walk.{cell, walk};
ghost use Rattle.walk.specs.Room.{tallied, most};
ghost use Rattle.walk.specs.Lent.{pool_of, plan_of};
ghost use Rattle.walk.specs.Plan.{Visits};
ghost use Rattle.laying.specs.Parts.{VisitsTwo, tag_walk, two_walks};

use super::rest::{Rest, Stop};
use grammar::entry::Entry;
use grammar::kind::Kind;
use grammar::kinds::{Tagged, Two, cons, dep, or};
use numbers::except;
use walk::lent::Lent;

// One cell.
fn one(room: usize) -> Rest
    requires { room ≤ most }
    ensures { result ≡ tallied room (cell 0 ∷ []) }
{
    if room == 0 {
        return Rest::stopped(Stop::NoRoom);
    }
    Rest::left(room - 1)
}

// A tag cell, then a part.
#[cycle(both_tagged_tally)]
fn tagged(lent: &Lent, s: Tagged, left: usize, room: usize) -> Rest
    requires visits { Visits (plan_of lent.now) (pool_of lent.now) s.part s.number }
    requires left_bound { (s.number + left ≤ 2 ^ 62 + 200) × (left ≤ 200) × (room ≤ most) }
    ensures { result ≡ tallied room (tag_walk (plan_of lent.now) (pool_of lent.now) left 0 s) }
{
    if room == 0 {
        return Rest::stopped(Stop::NoRoom);
    }
    tally(lent, s.part, s.number, left, room - 1)
}

// Two parts at two numbers.
#[cycle(both_tagged_tally)]
fn both(lent: &Lent, s: Two, left: usize, room: usize) -> Rest
    requires visits_two { VisitsTwo (plan_of lent.now) (pool_of lent.now) s }
    requires left_bound { (s.x + left ≤ 2 ^ 62 + 200) × (s.y + left ≤ 2 ^ 62 + 200) × (left ≤ 200) × (room ≤ most) }
    ensures { result ≡ tallied room
        (two_walks (plan_of lent.now) (pool_of lent.now) left s) }
{
    match tally(lent, s.first, s.x, left, room).result() {
        Ok(rest) => tally(lent, s.second, s.y, left, rest),
        Err(stop) => Rest::stopped(stop),
    }
}

// "visits the node's parts at one depth more": the walk calls itself on parts, and the depth left falls.
#[cycle(both_tagged_tally)]
pub fn tally(lent: &Lent, i: usize, n: u64, left: usize, room: usize) -> Rest
    requires visits { Visits (plan_of lent.now) (pool_of lent.now) i n }
    requires left_bound { (n + left ≤ 2 ^ 62 + 200) × (left ≤ 200) × (room ≤ most) }
    ensures { result ≡ tallied room (walk (rule_in (plan_of lent.now) (pool_of lent.now)) left 0 i n) }
{
    if left == 0 {
        return Rest::stopped(Stop::TooDeep);
    }
    let plan = lent.plan;
    let Entry { kind, a, b, .. } = plan[i];
    match kind {
        Kind::Below => one(room),
        Kind::Nats => one(room),
        Kind::Pool => one(room),
        Kind::Shift => tally(lent, a, n, left - 1, room),
        Kind::Or => tagged(lent, or::step(plan, a, b as usize, n), left - 1, room),
        Kind::Cons => both(lent, cons::step(plan, a, b as usize, n), left - 1, room),
        Kind::Dep => both(
            lent,
            dep::step(lent.pool, plan, a, b as usize, n),
            left - 1,
            room,
        ),
        Kind::Except => tally(lent, a, except::split(b, n), left - 1, room),
        Kind::Fix => tally(lent, a, n, left - 1, room),
        Kind::Again => tally(lent, a, n, left - 1, room),
    }
}
