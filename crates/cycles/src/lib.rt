// Cycles of a checked table: refusals 9 and 10. All steps lead to lower nodes but those of again,
// so the lowest node of any cycle is an again, and a table without one has no cycle.
#![tactic(auto)]

mod safety;
mod search;

ghost use Rattle.std.specs.Prelude.{◌≡◌, false, ℕ, ◌<◌};
ghost use Rattle.grammar.specs.Table.{kind_of, nodes};
ghost use Rattle.grammar.specs.Steps.{Unguarded, ExceptOnCycle};
ghost use Rattle.grammar.specs.Plan.{size_in};
ghost use Rattle.cycles.specs.Finds.{Finds};
ghost use Rattle.grammar.specs.Verdict.{cycles};

use grammar::refusal::{Refusal, Refused};
use grammar::weighed::Weighed;
use safety::all_safe;
use search::lowest_asked;

// Whether any node is an again.
fn has_again(w: &Weighed) -> bool
    ensures { result ≡ false → (n : ℕ) → n < nodes w.now.table → kind_of w.now.table n ≡ 9 → ⊥ }
{
    for n in 0..w.count() {
        if w.is_again(n) {
            return true;
        }
    }
    false
}

// Refusal 9: the lowest node on a cycle that never steps to the second part of an or. It is searched
// for only where the passes leave a node, since a search from each again is slow.
fn unguarded(w: &Weighed) -> Option<u64>
    ensures { Finds (Unguarded w.now.table w.now.pool (size_in w.now.plan)) result }
{
    w.checked();
    if all_safe(w) {
        return None;
    }
    lowest_asked(w, false)
}

// Refusal 10: the lowest except on any cycle.
fn except_on_cycle(w: &Weighed) -> Option<u64>
    ensures { Finds (ExceptOnCycle w.now.table w.now.pool (size_in w.now.plan)) result }
{
    lowest_asked(w, true)
}

// "then cycles": any 9 comes before any 10. A table with no again is not searched.
pub fn judge(w: &Weighed) -> Result<(), Refused>
    ensures { result ≡ cycles w.now.table w.now.pool (size_in w.now.plan) }
{
    w.checked();
    if !has_again(w) {
        return Ok(());
    }
    if let Some(node) = unguarded(w) {
        return Err(Refused {
            refusal: Refusal::Unguarded,
            node,
        });
    }
    if let Some(node) = except_on_cycle(w) {
        return Err(Refused {
            refusal: Refusal::ExceptOnCycle,
            node,
        });
    }
    Ok(())
}
