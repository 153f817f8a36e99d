// The workloads of bench/, over the proved library. Each line of standard input has a workload and how often it is done;
// a sum of all its answers is printed. A workload is ten times the number of a grammar and the number of a task.
#![tactic(auto)]

mod job;
mod row;
mod single;

use bench_tables::draw::mixed_all;
use bench_tables::tables::{MOST_POOL_WORDS, MOST_TABLE_WORDS, Words};
use job::Job;
use texts::line::numbers_at;
use texts::streams::{STDIN_FILENO, STDOUT_FILENO};

const MOST_CELLS: usize = 65536;

const MOST_ITEMS: usize = 8000;

const MOST_BYTES: usize = 4096;

const MOST_LINES: usize = 256;

// What is done again and again; a task on a row has so many items.
#[derive(Clone, Copy, Debug, PartialEq, Eq)]
enum Task {
    Check,
    Write,
    Read,
    WriteRow(usize),
    ReadRow(usize),
    Ask(usize),
}

impl From<u64> for Task {
    fn from(number: u64) -> Task {
        match number {
            0 => Task::Check,
            1 => Task::Write,
            2 => Task::Read,
            3 => Task::WriteRow(1000),
            4 => Task::ReadRow(1000),
            6 => Task::Ask(125),
            7 => Task::Ask(8000),
            _ => Task::Ask(1000),
        }
    }
}

// The words that all workloads are lent.
#[derive(Drop)]
struct Desk<'a> {
    table: &'a mut [u64],
    pool: &'a mut [u64],
    numbers: &'a mut [u64],
    cells: &'a mut [u64],
}

impl<'a> Desk<'a> {
    // A sum of all answers of a workload, and of the words that it leaves.
    fn run(&mut self, workload: u64, times: usize) -> u64 {
        let table = &mut *self.table;
        let pool = &mut *self.pool;
        let numbers = &mut *self.numbers;
        let cells = &mut *self.cells;
        let sum = answers(workload, times, Words { table, pool }, numbers, cells);
        mixed_all(mixed_all(sum, cells), numbers)
    }
}

fn answers(
    workload: u64,
    times: usize,
    mut words: Words,
    numbers: &mut [u64],
    cells: &mut [u64],
) -> u64 {
    let shape = words.lay(workload / 10);
    let Words { table, pool } = words;
    match Job::of(table, pool, shape, times) {
        Some(mut job) => done(Task::from(workload % 10), &mut job, numbers, cells),
        None => 0,
    }
}

fn done(task: Task, job: &mut Job, numbers: &mut [u64], cells: &mut [u64]) -> u64 {
    match task {
        Task::Check => single::check_often(job),
        Task::Write => single::write_often(job, cells),
        Task::Read => single::read_often(job, cells),
        Task::WriteRow(items) => row::write_often(job, row::drawn(numbers, items), cells),
        Task::ReadRow(items) => row::read_often(job, row::drawn(numbers, items), cells),
        Task::Ask(items) => row::ask_often(job, row::drawn(numbers, items), cells),
    }
}

fn say(workload: u64, sum: u64) {
    io::print_decimal(STDOUT_FILENO, workload);
    io::write_all(STDOUT_FILENO, b" ");
    io::print_decimal(STDOUT_FILENO, sum);
    io::write_all(STDOUT_FILENO, b"\n");
}

// Lines that cannot be read end the input.
fn answer_all(text: &[u8], desk: &mut Desk) {
    let mut at = 0;
    // A line that lacks a number keeps that of the line before.
    let mut fields = [0u64; 2];
    for _ in 0..MOST_LINES {
        let Some(line) = numbers_at(text, at, &mut fields) else {
            return;
        };
        let [workload, times] = fields;
        say(workload, desk.run(workload, times as usize));
        at = line.next;
    }
}

// The words are lent, and not this function's own: of a local array a proof writes out every word.
fn answer_input(room: &mut [u8; MOST_BYTES], desk: &mut Desk) {
    let size = io::read_full(STDIN_FILENO, room);
    let text: &[u8] = room;
    answer_all(&text[..size], desk);
}

fn main() {
    let mut room = [0u8; MOST_BYTES];
    let mut table = [0u64; MOST_TABLE_WORDS];
    let mut pool = [0u64; MOST_POOL_WORDS];
    let mut numbers = [0u64; MOST_ITEMS];
    let mut cells = [0u64; MOST_CELLS];
    let mut desk = Desk {
        table: &mut table,
        pool: &mut pool,
        numbers: &mut numbers,
        cells: &mut cells,
    };
    answer_input(&mut room, &mut desk);
}
