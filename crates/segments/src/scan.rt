// A look at every row over a piece that starts at tick a; each row's ticks before it stand at the row's place in given.
ghost use Rattle.std.specs.Prelude.{◌≡◌};
ghost use Rattle.demand.specs.Rows.{row_of, tasks_of, handlers_of, Sound};
ghost use Rattle.demand.specs.Tests.{pick};
ghost use Rattle.segments.specs.Inside.{late_clock, run_of, waits_of, lates_of, who_at, given_at, handler_given};
ghost use Rattle.segments.specs.Inside.{Looked, ReadyHandlers, ReadyTasks};

use crate::look;
use demand::table;
use demand::table::{HANDLERS_MOST, Kind, Row, TASKS_MOST};

// How many places there are: tasks stand at 0 and on, handlers behind the most tasks.
pub const PLACES: usize = TASKS_MOST + HANDLERS_MOST;

// The first tick from a on at which a handler waits; far where none does.
pub fn waits(handlers: &[u32], given: &[u64; PLACES], a: u64, far: u64) -> u64
    requires { ReadyHandlers handlers.now given.now a }
    ensures { result ≡ waits_of far a (handler_given given.now) 0 (handlers_of handlers.now) }
{
    let count = table::count(Kind::Handler, handlers);
    let mut first = far;
    for j in 0..count {
        let row = table::row_at(Kind::Handler, handlers, j);
        first = first.min(look::wait(row, given[TASKS_MOST + j], a));
    }
    first
}

// The first deadline that a task does not meet, where it runs and where it rests. The flag is a fact about the row: a closure would have
// to be picked by it all the same.
fn late(row: Row, given: u64, a: u64, far: u64, runs: bool) -> u64
    requires { Looked (row_of row) given a × Sound (row_of row) }
    ensures { result ≡ pick runs (run_of far a (row_of row) given) (late_clock (row_of row) given) }
{
    if runs {
        look::run(row, given, a, far)
    } else {
        look::rest(row, given, a)
    }
}

// The first deadline that some task does not meet, where the row at place runner runs; far where all are met.
pub fn lates(tasks: &[u32], given: &[u64; PLACES], runner: usize, a: u64, far: u64) -> u64
    requires { ReadyTasks tasks.now given.now a }
    ensures { result ≡ lates_of far a (given_at given.now) (who_at runner) 0 (tasks_of tasks.now) }
{
    let count = table::count(Kind::Task, tasks);
    let mut first = far;
    for j in 0..count {
        let row = table::row_at(Kind::Task, tasks, j);
        first = first.min(late(row, given[j], a, far, runner == j));
    }
    first
}
