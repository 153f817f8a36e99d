// Marks on nodes that come to no cycle of refusal 9. What is known of them (`SafeMarks`) is of the table too, which is only read:
// a struct of both would be lent whole where the marks alone change.
ghost use Rattle.std.specs.Prelude.{◌≡◌, true, false, ℕ, ◌<◌};
ghost use Rattle.grammar.specs.Table.{nodes};
ghost use Rattle.lists.specs.Lists.{every};
ghost use Rattle.grammar.specs.Steps.{Unguarded};
ghost use Rattle.grammar.specs.Plan.{size_in};
ghost use Rattle.cycles.specs.Safe.{is_marked, SafeMarks, SafePass};
ghost use Rattle.grammar.specs.Shown.{steps_in};

use super::search::MOST_NODES;
use grammar::kinds::steps_of;
use grammar::weighed::Weighed;

// More than a table has nodes: no path that opens each of them once is as long.
const DEEPEST: usize = 257;

// Whether the nodes that node n steps to are all marked safe. A step that guards a cycle is not asked: 9
// never takes one.
fn steps_safe(w: &Weighed, n: usize, safe: &[bool; MOST_NODES]) -> bool
    requires { n < nodes w.now.table }
    ensures { result ≡ every (is_marked safe.now) (steps_in false w.now.table w.now.pool w.now.plan n) }
{
    w.checked();
    let steps = steps_of(w, n, false);
    for k in steps {
        if !safe[k] {
            return false;
        }
    }
    true
}

// One pass over the nodes, rising: marks those whose steps lead to safe nodes alone, and says how
// many stay unmarked.
fn safe_pass(w: &Weighed, safe: &mut [bool; MOST_NODES]) -> usize
    requires { SafeMarks w.now.table w.now.pool w.now.plan safe.old }
    ensures { SafePass w.now.table w.now.pool w.now.plan safe.new (nodes w.now.table) result }
{
    let mut left = 0;
    // By the node's number: its steps are asked for by it, and the other marks are read while its own is set.
    for n in 0..w.count() {
        if safe[n] {
            continue;
        }
        if steps_safe(w, n, safe) {
            safe[n] = true;
            continue;
        }
        left += 1;
    }
    left
}

// Marks node n if all that it steps to can be marked, those first: each node is opened once.
fn settle(
    w: &Weighed,
    n: usize,
    left: usize,
    open: &mut [bool; MOST_NODES],
    safe: &mut [bool; MOST_NODES],
)
    requires n_bound { n < nodes w.now.table }
    requires safe_marks { SafeMarks w.now.table w.now.pool w.now.plan safe.old }
    ensures { SafeMarks w.now.table w.now.pool w.now.plan safe.new }
{
    w.checked();
    if left == 0 {
        return;
    }
    if open[n] {
        return;
    }
    open[n] = true;
    for k in steps_of(w, n, false) {
        settle(w, k, left - 1, open, safe);
    }
    if steps_safe(w, n, safe) {
        safe[n] = true;
    }
}

// Whether every node can be marked: each is settled, those it steps to before it, so that a table with no
// refusal 9 is gone through once.
fn all_settled(w: &Weighed, safe: &mut [bool; MOST_NODES]) -> bool
    requires { SafeMarks w.now.table w.now.pool w.now.plan safe.old }
    ensures { result ≡ true → (n : ℕ) → Unguarded w.now.table w.now.pool (size_in w.now.plan) n → ⊥ }
{
    // What is marked already needs no opening.
    let mut open = *safe;
    // By the node's number, as in a pass: all the marks are lent on.
    for n in 0..w.count() {
        // Most are marked by now, on the way down from a node before: no call for those.
        if safe[n] {
            continue;
        }
        settle(w, n, DEEPEST, &mut open, safe);
        if !safe[n] {
            return false;
        }
    }
    true
}

// Whether marks show that no node is on "a cycle that never steps to the second part of an or". Passes
// over the nodes go on while each leaves at most half of those before it; then what is left is settled.
pub fn all_safe(w: &Weighed) -> bool
    ensures { result ≡ true → (n : ℕ) → Unguarded w.now.table w.now.pool (size_in w.now.plan) n → ⊥ }
{
    let mut safe = [false; MOST_NODES];
    let mut left = w.count();
    while 0 < left {
        let still = safe_pass(w, &mut safe);
        if left / 2 < still {
            return all_settled(w, &mut safe);
        }
        left = still;
    }
    true
}
