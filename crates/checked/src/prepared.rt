// The check of a table, which leaves the plan that the walks use.
ghost use Rattle.std.specs.Prelude.{◌≡◌};
ghost use Rattle.grammar.specs.Table.{lengths};
ghost use Rattle.checked.specs.Prepared.{Blank, Prepared};

use grammar::entry::{BLANK, Entry};
use grammar::refusal::{Refusal, Refused};
use grammar::weighed::Weighed;
use planning::plan::weigh_all;

const MOST_NODES: usize = 256;

const MOST_WORDS: usize = 4096;

// The words of a table of 16 nodes: up to here a call takes a plan of 16 entries, else one of 256. A small
// table does not pay for the largest.
const SMALL: usize = 48;

const SMALL_PLAN: usize = 16;

const PLAN: usize = 256;

// "word and pool lengths"
fn lengths_fit(table: &[u64], pool: &[u64]) -> bool
    ensures { result ≡ lengths table.now pool.now }
{
    let count = table.len() / 3;
    table.len() == 3 * count && 1 <= count && count <= MOST_NODES && pool.len() <= MOST_WORDS
}

// `Blank` is no type's invariant: it speaks of table and plan together, which their callers use apart.
// "The whole check: word and pool lengths (1, node 0); then nodes rising ..; then cycles."
pub fn prepare(table: &[u64], pool: &[u64], plan: &mut [Entry]) -> Result<(), Refused>
    requires { Blank table.now plan.old }
    ensures { Prepared table.now pool.now plan.new result }
{
    if !lengths_fit(table, pool) {
        return Err(Refused {
            refusal: Refusal::Length,
            node: 0,
        });
    }
    weigh_all(table, pool, plan)?;
    cycles::judge(&Weighed { table, pool, plan })
}

// A call that is lent a plan for the table, beside a buffer of its own.
pub fn with_plan<R, F: FnOnce(&mut [Entry], &mut [u64]) -> R>(
    table: &[u64],
    lent: &mut [u64],
    call: F,
) -> R
    requires { (p : _) (l : _) → Blank table.now p.now → F.pre call p l }
    ensures { (p : _) × (q : _) × (l : _) × (m : _) × Blank table.now p.now × (l.now ≡ lent.old) × (m.now ≡ lent.new) × F.post call p l result q m }
{
    if table.len() <= SMALL {
        let mut plan = [BLANK; SMALL_PLAN];
        return call(&mut plan, lent);
    }
    let mut plan = [BLANK; PLAN];
    call(&mut plan, lent)
}
