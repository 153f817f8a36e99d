// Workloads on one case at a time.
use super::job::Job;
use bench_tables::draw::{drawn_below, mixed, word_at};
use grammar::refusal::{Refusal, number_of};

// How often each written case is read, so that the writing is drowned.
const READINGS: usize = 16;

pub fn refused(refusal: Refusal, node: u64) -> u64 {
    mixed(number_of(refusal), node)
}

fn checked(job: &Job) -> u64 {
    match cases::check(job.table, job.pool) {
        Ok(()) => 0,
        Err(e) => refused(e.refusal, e.node),
    }
}

pub fn check_often(job: &mut Job) -> u64 {
    let times = job.times;
    job.turns(times, |job, sum, _| mixed(sum, checked(job)))
}

// The count of cells of a drawn number, 0 where the number is refused.
fn written(job: &Job, k: usize, cells: &mut [u64]) -> usize {
    let number = drawn_below(k as u64, job.limit);
    cases::write(job.table, job.pool, job.start, number, cells).unwrap_or(0)
}

pub fn write_often(job: &mut Job, cells: &mut [u64]) -> u64 {
    let times = job.times;
    job.turns(times, |job, sum, k| {
        let count = written(job, k, cells);
        mixed(mixed(sum, count as u64), word_at(cells, k % 16))
    })
}

fn found(job: &Job, cells: &[u64]) -> u64 {
    match cases::read(job.table, job.pool, job.start, cells) {
        Ok(number) => number,
        Err(e) => refused(e.refusal, e.node),
    }
}

// Each written case is read many times.
pub fn read_often(job: &mut Job, cells: &mut [u64]) -> u64 {
    let mut sum = 0;
    for k in 0..job.times {
        let count = written(job, k, cells);
        let case = cells.get(..count).unwrap_or(&[]);
        sum = mixed(
            sum,
            job.turns(READINGS, |job, sum, _| mixed(sum, found(job, case))),
        );
    }
    sum
}
