// The nodes of a table, one after the other, and the plan that they are put into.
ghost use Rattle.std.specs.Prelude.{◌≡◌, ◌*◌, ◌<◌, ◌≤◌, Ok, Err, length, replicate, MatchResult};
ghost use Rattle.grammar.specs.Table.{nodes};
ghost use Rattle.grammar.specs.Kind.{spare};
ghost use Rattle.grammar.specs.KindWords.{word_of_kind};
ghost use Rattle.grammar.specs.kinds.{used_words, kind_in};
ghost use Rattle.grammar.specs.Nodes.{row_at};
ghost use Rattle.grammar.specs.Plan.{blank, size_in, coded, Enters, AllWeighed};

use grammar::entry::Entry;
use grammar::kind::Kind;
use grammar::kinds::{KINDS, asks, row, used_words};
use grammar::refusal::{Refusal, Refused};

// "a word not used is zero"
fn spare_words(kind: Kind, a: u64, b: u64, used: &[[bool; 2]; KINDS]) -> bool
    requires { used.now ≡ used_words }
    ensures { result ≡ spare (kind_in (word_of_kind kind)) a b }
{
    let [uses_a, uses_b] = &used[kind as usize];
    (a == 0 || *uses_a) && (b == 0 || *uses_b)
}

// The whole row of node n: its entry, with its size.
fn weigh(
    table: &[u64],
    pool: &[u64],
    plan: &[Entry],
    n: usize,
    used: &[[bool; 2]; KINDS],
) -> Result<Entry, Refusal>
    requires used_value { used.now ≡ used_words }
    requires table_len { (length table.now ≡ 3 * nodes table.now) × (n < nodes table.now) × (n ≤ length plan.now) }
    ensures { MatchResult result (λ e. Enters table.now n e × (coded (row_at table.now pool.now (size_in plan.now) n) ≡ Ok e.size))
        (λ r. coded (row_at table.now pool.now (size_in plan.now) n) ≡ Err r) }
{
    let word = table[3 * n];
    let a = table[3 * n + 1];
    let b = table[3 * n + 2];
    let kind = Kind::try_from(word)?;
    asks(spare_words(kind, a, b, used), Refusal::SpareWord)?;
    let size = row(table, pool, plan, n, word, a, b)?;
    let a = a as usize;
    Ok(Entry { kind, a, b, size })
}

// The same, a refusal with its node.
fn weigh_node(
    table: &[u64],
    pool: &[u64],
    plan: &[Entry],
    n: usize,
    used: &[[bool; 2]; KINDS],
) -> Result<Entry, Refused>
    requires used_value { used.now ≡ used_words }
    requires table_len { (length table.now ≡ 3 * nodes table.now) × (n < nodes table.now) × (n ≤ length plan.now) }
    ensures { MatchResult result (λ e. Enters table.now n e × (coded (row_at table.now pool.now (size_in plan.now) n) ≡ Ok e.size))
        (λ r. (coded (row_at table.now pool.now (size_in plan.now) n) ≡ Err r.refusal) × (r.node ≡ n)) }
{
    weigh(table, pool, plan, n, used).map_err(|refusal| Refused {
        refusal,
        node: n as u64,
    })
}

// "then nodes rising": the first fault and its node, or the plan of them all.
pub fn weigh_all(table: &[u64], pool: &[u64], plan: &mut [Entry]) -> Result<(), Refused>
    requires table_len { length table.now ≡ 3 * nodes table.now }
    requires plan_value { (plan.old ≡ replicate (length plan.old) blank) × (nodes table.now ≤ length plan.old) }
    ensures { AllWeighed table.now pool.now plan.new result }
{
    let used = used_words();
    // A row looks at the entries before it in the same plan, so no iterator over it can be held.
    for n in 0..table.len() / 3 {
        let entry = weigh_node(table, pool, plan, n, &used)?;
        plan[n].put(entry);
    }
    Ok(())
}
