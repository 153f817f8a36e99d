// Whether every case of a node fits a room, whatever its number: then a call may write in one pass.
// It goes by widths: the most cells that a node's cases may have.
ghost use Rattle.std.specs.Prelude.{◌≡◌, true, ◌+◌, ◌<◌, Some, None, leb, length};
ghost use Rattle.numbers.specs.Pick.{pick};
ghost use Rattle.walk.specs.Room.{most};
ghost use Rattle.laying.specs.Sure.{Sure, Width, Widths, width_at};

use grammar::entry::Entry;
use grammar::kind::Kind;

// Only the first nodes are looked at. A known width is made of widths that were known before it, so no
// walk from such a node goes deeper than 32: that fits "Depth is at most 200" without a look.
const NODES: usize = 32;

// "A case has at most 65,536 cells"
const MOST_CELLS: usize = 65536;

// A width past what a case may have says nothing: it counts as not known.
fn known(w: usize) -> Option<usize>
    ensures { result ≡ pick (leb w most) (Some w) None }
{
    (w <= MOST_CELLS).then_some(w)
}

// The width of a part; past the first nodes it is not known.
fn part(widths: &[Option<usize>; NODES], a: usize) -> Option<usize>
    requires { length widths.now ≡ 32 }
    ensures { result ≡ width_at widths.now a }
{
    *widths.get(a)?
}

// A width of node k, from those of its parts. A part that is not filled yet is not known, and so is what is
// made of it. Of a kind without a line it is not known: a dep has seconds in the pool, an again leads back
// to its fix.
fn width_of(plan: &[Entry], k: usize, widths: &[Option<usize>; NODES]) -> Option<usize>
    requires k_in_bounds { k < length plan.now }
    requires widths { Widths plan.now widths.now k }
    ensures { Width plan.now k result (k + 1) }
{
    let Entry { kind, a, b, .. } = plan[k];
    match kind {
        Kind::Below => Some(1),
        Kind::Nats => Some(1),
        Kind::Pool => Some(1),
        Kind::Shift => part(widths, a),
        Kind::Or => known(1 + part(widths, a)?.max(part(widths, b as usize)?)),
        Kind::Cons => known(part(widths, a)? + part(widths, b as usize)?),
        Kind::Except => part(widths, a),
        Kind::Fix => part(widths, a),
        _ => None,
    }
}

// "Depth is at most 200. A case has at most 65,536 cells": whether every case of node i fits a room.
pub fn sure(plan: &[Entry], i: usize, room: usize) -> bool
    requires { i < length plan.now }
    ensures { result ≡ true → Sure plan.now i room }
{
    if NODES <= i {
        return false;
    }
    // A fix is nearly always one of a recursion, and that has no width.
    if matches!(plan[i].kind, Kind::Fix | Kind::Again) {
        return false;
    }
    let mut widths = [None; NODES];
    // A width is made of those before it in the same array, so no iterator over it can be held.
    for k in 0..i + 1 {
        widths[k] = width_of(plan, k, &widths);
    }
    match widths[i] {
        Some(w) => w <= room,
        None => false,
    }
}
