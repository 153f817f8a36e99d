// Whether a node leads back to itself, and the lowest node that does.
ghost use Rattle.std.specs.Prelude.{◌≡◌, ◌<◌};
ghost use Rattle.graph.specs.Paths.{Decides};
ghost use Rattle.grammar.specs.Table.{nodes};
ghost use Rattle.grammar.specs.Steps.{Leads};
ghost use Rattle.grammar.specs.Plan.{size_in};
ghost use Rattle.cycles.specs.Finds.{Finds};
ghost use Rattle.cycles.specs.Asked.{asked, OnCycle, Marks};

use grammar::kinds::{skips, steps_of};
use grammar::weighed::Weighed;

// A mark for each node that a table may have.
pub const MOST_NODES: usize = 256;

// Marks the nodes that node n names. `guarded`, here and below, is the rules' own word (`steps`): an enum would only name the two again.
fn mark_steps(w: &Weighed, n: usize, guarded: bool, seen: &mut [bool; MOST_NODES])
    requires { n < nodes w.now.table }
    ensures { Marks guarded w.now.table w.now.pool w.now.plan n seen.old seen.new }
{
    w.checked();
    for k in steps_of(w, n, guarded) {
        seen[k] = true;
    }
}

// Whether node n leads back to itself. Each node is opened once: the nodes from `top` on that are
// marked have been. It goes up again after an again, so no `for` runs over it.
fn comes_back(w: &Weighed, n: usize, guarded: bool) -> bool
    requires { n < nodes w.now.table }
    ensures { Decides (Leads guarded w.now.table w.now.pool (size_in w.now.plan) n n) result }
{
    let mut seen = [false; MOST_NODES];
    let mut done = [false; MOST_NODES];
    mark_steps(w, n, guarded, &mut seen);
    let mut top = w.count();
    while 0 < top {
        top -= 1;
        if !seen[top] {
            continue;
        }
        if done[top] {
            continue;
        }
        done[top] = true;
        mark_steps(w, top, guarded, &mut seen);
        if w.is_again(top) {
            top = w.count();
        }
    }
    seen[n]
}

// Whether a cycle is looked for from node n: for refusal 10 from the excepts, for 9 from the
// agains, since the lowest node of any cycle is one.
fn asked(w: &Weighed, n: usize, guarded: bool) -> bool
    requires { n < nodes w.now.table }
    ensures { result ≡ asked guarded w.now.table w.now.pool (size_in w.now.plan) n }
{
    if guarded {
        return skips(w.table[3 * n]);
    }
    w.is_again(n)
}

// The lowest node that is asked and is on a cycle, where there is one.
pub fn lowest_asked(w: &Weighed, guarded: bool) -> Option<u64>
    ensures { Finds (OnCycle guarded w.now.table w.now.pool (size_in w.now.plan)) result }
{
    for n in 0..w.count() {
        if asked(w, n, guarded) {
            if comes_back(w, n, guarded) {
                return Some(n as u64);
            }
        }
    }
    None
}
