// A grammar that is laid out, and how often a task is done on it.
ghost use Rattle.std.specs.Prelude.{◌≡◌};

use bench_tables::tables::Shape;

#[derive(Drop)]
pub struct Job<'a> {
    pub table: &'a mut [u64],
    pub pool: &'a [u64],
    pub start: usize,
    pub limit: u64,
    pub times: usize,
    // The table's first word.
    kind: u64,
}

impl<'a> Job<'a> {
    // Lends the words that the grammar takes, if there are as many.
    pub fn of(
        table: &'a mut [u64],
        pool: &'a [u64],
        shape: Shape,
        times: usize,
    ) -> Option<Job<'a>> {
        let kind = table.first().copied()?;
        let table = table.get_mut(..shape.nodes.checked_mul(3)?)?;
        let pool = pool.get(..shape.words)?;
        Some(Job {
            table,
            pool,
            start: shape.start,
            limit: shape.limit,
            times,
            kind,
        })
    }

    // A store that no compiler can do without: else a check that gives the same answer each time is made once.
    fn touch(&mut self)
        ensures start { self.new.start ≡ self.old.start }
        ensures limit { self.new.limit ≡ self.old.limit }
        ensures times { self.new.times ≡ self.old.times }
    {
        if let Some(word) = self.table.first_mut() {
            *word = self.kind;
        }
    }

    // What so many turns make of a sum. The job stays as it is but for its table, so that each turn is asked for the same.
    pub fn turns<F: FnMut(&Job, u64, usize) -> u64>(&mut self, times: usize, mut turn: F) -> u64
        requires { F.IsAlwaysCallable turn }
        ensures start { self.new.start ≡ self.old.start }
        ensures limit { self.new.limit ≡ self.old.limit }
        ensures times { self.new.times ≡ self.old.times }
    {
        let mut sum = 0;
        for k in 0..times {
            self.touch();
            sum = turn(self, sum, k);
        }
        sum
    }
}
