// The synchronous arrivals of a tick, and the ticks without any.
ghost use Rattle.std.specs.Prelude.{◌≡◌, ◌≤◌, ◌<◌, length, take};
ghost use Rattle.demand.specs.Refusals.{table_refusal, FairRow};
ghost use Rattle.demand.specs.Rows.{tasks_of, row_at, row_of};
ghost use Rattle.guarantees.specs.Patterns.{rows_in};
ghost use Rattle.guarantees.specs.Synchronous.{beat_of};
ghost use Rattle.own_segments.specs.Inside.{Rests, Quiet};
ghost use Rattle.machine.specs.Schedules.{beat};
ghost use Rattle.scheduler.specs.Runs.{row_places};

use demand::table;
use demand::table::{Kind, Row};
use scheduler::sizes::PLACES;

// The row at place k, handlers behind n tasks.
fn row_at(tasks: &[u32], handlers: &[u32], n: usize, k: usize) -> Row
    requires { (table_refusal tasks.now handlers.now ≡ 0) × (n ≡ length (tasks_of tasks.now))
        × (k < length (rows_in tasks.now handlers.now)) }
    ensures { row_of result ≡ row_at (rows_in tasks.now handlers.now) k }
{
    if k < n {
        table::row_at(Kind::Task, tasks, k)
    } else {
        table::row_at(Kind::Handler, handlers, k - n)
    }
}

// What a row brings at this tick.
fn beat(row: Row, tick: u64) -> u32
    requires { FairRow (row_of row) }
    ensures { result ≡ beat tick (row_of row) }
{
    if tick % row.period == 0 {
        // A cost of a table, so below 2^32.
        row.cost as u32
    } else {
        0
    }
}

// How many rows a table has.
pub fn count(tasks: &[u32], handlers: &[u32]) -> usize
    requires { table_refusal tasks.now handlers.now ≡ 0 }
    ensures { result ≡ length (rows_in tasks.now handlers.now) }
{
    table::count(Kind::Task, tasks) + table::count(Kind::Handler, handlers)
}

// A number for each row, and zeros behind.
pub fn beats(tasks: &[u32], handlers: &[u32], tick: u64) -> [u32; PLACES]
    requires { table_refusal tasks.now handlers.now ≡ 0 }
    ensures { (length result ≡ row_places)
        × (take (length (rows_in tasks.now handlers.now)) result
        ≡ beat_of tasks.now handlers.now tick) }
{
    let n = table::count(Kind::Task, tasks);
    let all = count(tasks, handlers);
    let mut ws = [0u32; PLACES];
    for k in 0..all {
        ws[k] = beat(row_at(tasks, handlers, n, k), tick);
    }
    ws
}

// The ticks from this one on at which a row does not arrive, of at most so many.
fn until(row: Row, tick: u64, most: u64) -> u64
    requires { FairRow (row_of row) }
    ensures { (result ≤ most) × (Rests (row_of row) tick result) }
{
    let rest = tick % row.period;
    if rest == 0 {
        return 0;
    }
    (row.period - rest).min(most)
}

// The ticks from this one on at which none does, of at most so many.
pub fn gap(tasks: &[u32], handlers: &[u32], tick: u64, most: u64) -> u64
    requires { table_refusal tasks.now handlers.now ≡ 0 }
    ensures { (result ≤ most) × Quiet tasks.now handlers.now tick result }
{
    let n = table::count(Kind::Task, tasks);
    let all = count(tasks, handlers);
    let mut least = most;
    for k in 0..all {
        least = until(row_at(tasks, handlers, n, k), tick, least);
    }
    least
}
