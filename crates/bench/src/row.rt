// Workloads on rows of short cases.
use super::job::Job;
use super::single::refused;
use bench_tables::draw::{drawn_below, mixed, word_at};
use grammar::refusal::Refused;
use rows::Next;

// Numbers below this have short cases.
const SHORT: u64 = 100;

// So many numbers of short cases, at the front of the lent ones.
pub fn drawn(numbers: &mut [u64], items: usize) -> &mut [u64] {
    let numbers = numbers.get_mut(..items).unwrap_or(&mut []);
    for (i, number) in numbers.iter_mut().enumerate() {
        *number = drawn_below(i as u64, SHORT);
    }
    numbers
}

// The cells used, 0 where the row is refused.
fn written(job: &Job, numbers: &[u64], cells: &mut [u64]) -> usize {
    match rows::write_row(job.table, job.pool, job.start, numbers, cells) {
        Ok(row) => row.cells,
        Err(_) => 0,
    }
}

pub fn write_often(job: &mut Job, numbers: &[u64], cells: &mut [u64]) -> u64 {
    let times = job.times;
    job.turns(times, |job, sum, k| {
        let used = written(job, numbers, cells);
        mixed(mixed(sum, used as u64), word_at(cells, k % 1024))
    })
}

fn taken(job: &Job, row: &[u64], numbers: &mut [u64]) -> u64 {
    match rows::read_row(job.table, job.pool, job.start, row, numbers) {
        Ok(row) => row.items as u64,
        Err(e) => mixed(refused(e.refusal, e.node), e.item as u64),
    }
}

pub fn read_often(job: &mut Job, numbers: &mut [u64], cells: &mut [u64]) -> u64 {
    let used = written(job, numbers, cells);
    let row = cells.get(..used).unwrap_or(&[]);
    let times = job.times;
    job.turns(times, |job, sum, k| {
        let items = taken(job, row, numbers);
        mixed(mixed(sum, items), word_at(numbers, k % 1024))
    })
}

fn answer_of(answer: Result<Option<Next>, Refused>) -> u64 {
    match answer {
        Ok(Some(next)) => mixed(next.number, next.cells as u64),
        Ok(None) => 0,
        Err(e) => refused(e.refusal, e.node),
    }
}

// The reader is asked for each item.
pub fn ask_often(job: &mut Job, numbers: &[u64], cells: &mut [u64]) -> u64 {
    let used = written(job, numbers, cells);
    let row = cells.get(..used).unwrap_or(&[]);
    let mut sum = 0;
    for _ in 0..job.times {
        let mut at = 0;
        let asked = job.turns(numbers.len(), |job, sum, _| {
            let stride = rows::read_at(job.table, job.pool, job.start, row, at);
            at = stride.at;
            mixed(sum, answer_of(stride.answer))
        });
        sum = mixed(sum, asked);
    }
    sum
}
