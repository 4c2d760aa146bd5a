// What stands at a place: a row of the table.
ghost use Rattle.std.specs.Prelude.{◌≡◌, ◌+◌, ◌*◌, ◌<◌, ◌≤◌};
ghost use Rattle.demand.specs.Limits.{tasks_most, handlers_most};
ghost use Rattle.demand.specs.Rows.{tasks_of, handlers_of, width, row_at, row_of};
ghost use Rattle.scheduler.specs.Inside.Counted.{Fitting};
ghost use Rattle.scheduler.specs.Inside.Keys.{periods_of};
ghost use Rattle.scheduler.specs.Runs.{row_in};

use crate::Run;
use demand::table;
use demand::table::{Kind, Row, TASKS_MOST};

// How many numbers so many rows have.
pub fn numbers(kind: Kind, count: usize) -> usize
    requires { count ≤ tasks_most }
    ensures { result ≡ width kind * count }
{
    table::width(kind) * count
}

// The row of task k.
pub fn task(run: &Run, k: usize) -> Row
    requires { k < tasks_most }
    ensures { row_of result ≡ row_at (tasks_of run.now.tasks) k }
{
    table::row_at(Kind::Task, &run.tasks, k)
}

// The row of handler i.
pub fn handler(run: &Run, i: usize) -> Row
    requires { i < handlers_most }
    ensures { row_of result ≡ row_at (handlers_of run.now.handlers) i }
{
    table::row_at(Kind::Handler, &run.handlers, i)
}

// The row at place k, handlers behind tasks.
pub fn row_at(run: &Run, k: usize) -> Row
    requires { Fitting run.now.task_count run.now.handler_count
        × (k < run.now.task_count + run.now.handler_count) }
    ensures { row_of result ≡ row_in run.now k }
{
    let n = run.task_count;
    if k < n {
        task(run, k)
    } else {
        handler(run, k - n)
    }
}

// The periods of the tasks, and zeros behind.
pub fn periods(run: &Run) -> [u64; TASKS_MOST]
    requires { run.now.task_count ≤ tasks_most }
    ensures { result ≡ periods_of run.now.tasks run.now.task_count }
{
    let mut all = [0u64; TASKS_MOST];
    for k in 0..run.task_count {
        all[k] = task(run, k).period;
    }
    all
}
