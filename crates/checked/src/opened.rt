// How every call begins: with a checked table and a start in it.
ghost use Rattle.checked.specs.Prepared.{Blank};
ghost use Rattle.checked.specs.Opened.{Opens, Called};

use super::prepared::{prepare, with_plan};
use grammar::entry::Entry;
use grammar::refusal::{Refusal, Refused};
use std::marker::Model;

// A start in a table that has passed the check, by the plan that the walks use: cases of it are written
// and read. It is cloned and not copied, since a model with a lifetime can have no `Copy` yet.
#[derive(Clone, Drop)]
pub struct Opened<'a> {
    pub pool: &'a [u64],
    pub plan: &'a [Entry],
    pub start: usize,
}

impl<'a> Model for Opened<'a> {
    ghost use Rattle.walk.specs.Plan.{Reading};
    ghost use Rattle.checked.specs.Opened.{Place};

    ghost Value = { Place };

    ghost view = { λ o. record { pool = o.pool.now; plan = o.plan.now; start = o.start } };

    ghost invariant = { λ o. Reading o.plan.now o.pool.now o.start };
}

// "Each call checks the table first, then 11"
fn begin<'a>(
    table: &[u64],
    pool: &'a [u64],
    plan: &'a mut [Entry],
    start: usize,
) -> Result<Opened<'a>, Refused>
    requires { Blank table.now plan.old }
    ensures { Opens table.now pool.now start result }
{
    prepare(table, pool, plan)?;
    if table.len() / 3 <= start {
        return Err(Refused::from(Refusal::NoSuchStart));
    }
    Ok(Opened { pool, plan, start })
}

// A call on an opened table, which is lent a buffer.
pub fn with_opened<R, F: FnOnce(&Opened, &mut [u64]) -> R>(
    table: &[u64],
    pool: &[u64],
    start: usize,
    lent: &mut [u64],
    call: F,
) -> Result<R, Refused>
    requires { (o : _) (l : _) → F.pre call o l }
    ensures { Called (F.post call) table.now pool.now start lent.old lent.new result }
{
    with_plan(
        table,
        lent,
        |plan, lent|
            requires blank { Blank table.now plan.old }
            requires callable { (o : _) (l : _) → F.pre call o l }
            ensures { Called (F.post call) table.entry.now pool.entry.now start lent.old lent.new result }
        {
            let opened = begin(table, pool, plan, start)?;
            Ok(call(&opened, lent))
        },
    )
}
