// Refusal 6: is a run out of bounds? Its counts and its clock first, then one pass over its tasks and one over its handlers.
ghost use Rattle.std.specs.Prelude.{◌≡◌, ◌≤◌};
ghost use Rattle.demand.specs.Limits.{tasks_most, ticks_most};
ghost use Rattle.demand.specs.Rows.{row_of};
ghost use Rattle.scheduler.specs.Bounds.{miscounts, names, out_of_bounds};
ghost use Rattle.scheduler.specs.Inside.Counted.{Fitting};
ghost use Rattle.scheduler.specs.Inside.OnePass.{earliest_due, task_out, task_out_at, handler_out, handler_out_at, late_out};
ghost use Rattle.scheduler.specs.Scans.{at, any};
ghost use Rattle.scheduler.specs.Tick.{late_row};

use crate::{Run, places, rows, tick};
use demand::table;
use demand::table::Row;

fn miscounts(n: usize, m: usize) -> bool
    ensures { result ≡ miscounts n m }
{
    (n == 0) | (Run::TASKS_MOST < n) | (Run::HANDLERS_MOST < m)
}

// The earliest deadline that has not passed: the clock where the run is over, else the tick behind it.
// The flag is the run's own: a tick either way.
fn earliest_due(over: bool, clock: u64) -> u64
    requires { clock ≤ ticks_most }
    ensures { result ≡ earliest_due over clock }
{
    if over { clock } else { clock + 1 }
}

// Does a clause speak against a task of this row, next arrival, deadline and work owed? Its figures first, so that no sum is too large.
// What a run has of one task, read from five lists: no struct of it is kept.
fn task_out(row: Row, next: u64, due: u64, owed: u64, clock: u64, first: u64) -> bool
    requires { clock ≤ ticks_most }
    ensures { result ≡ task_out clock first (row_of row) next due owed }
{
    let figures = table::outside(row.cost) | table::outside(row.period);
    let own = (row.deadline == 0) | (row.period < row.deadline);
    if figures | own {
        return true;
    }
    let next_far = clock + row.period < next;
    let much = row.cost < owed;
    let due_far = clock + row.deadline < due;
    let behind = next < due;
    let missed = (0 < owed) & (due < first);
    next_far | much | due_far | behind | missed
}

// The same of a handler.
fn handler_out(row: Row, next: u64, owed: u64, clock: u64) -> bool
    requires { clock ≤ ticks_most }
    ensures { result ≡ handler_out clock (row_of row) next owed }
{
    if table::outside(row.cost) | table::outside(row.period) {
        return true;
    }
    let next_far = clock + row.period < next;
    let much = clock * row.cost < owed;
    next_far | much
}

// Does a clause speak against a task?
fn tasks_out(run: &Run, first: u64) -> bool
    requires { (run.now.task_count ≤ tasks_most) × (run.now.clock ≤ ticks_most) }
    ensures { result ≡ any (task_out_at run.now.clock first run.now.tasks run.now.next
        run.now.due run.now.owed) run.now.task_count }
{
    let mut bad = false;
    for k in 0..run.task_count {
        let row = rows::task(run, k);
        bad |= task_out(row, run.next[k], run.due[k], run.owed[k], run.clock, first);
    }
    bad
}

// Does a clause speak against a handler?
fn handlers_out(run: &Run) -> bool
    requires { Fitting run.now.task_count run.now.handler_count × (run.now.clock ≤ ticks_most) }
    ensures { result ≡ any (handler_out_at run.now.clock run.now.handlers run.now.next
        run.now.owed run.now.task_count) run.now.handler_count }
{
    let n = run.task_count;
    let mut bad = false;
    for i in 0..run.handler_count {
        let row = rows::handler(run, i);
        bad |= handler_out(row, run.next[n + i], run.owed[n + i], run.clock);
    }
    bad
}

// Is the late row named, and that of the first late task?
fn names(late: Option<usize>, first: Option<usize>) -> bool
    ensures { result ≡ names late first }
{
    late.is_some() & (late == first)
}

// Over, is its late row not the first late task; not over, does it name a late row?
fn late_out(run: &Run) -> bool
    requires { run.now.task_count ≤ tasks_most }
    ensures { result ≡ late_out run.now.over run.now.late (late_row run.now.clock (at run.now.due)
        run.now.owed run.now.task_count) }
{
    if run.over {
        !names(run.late, tick::late_row(run))
    } else {
        run.late.is_some()
    }
}

// Is a run out of bounds?
pub fn out_of_bounds(run: &Run) -> bool
    ensures { result ≡ out_of_bounds run.now }
{
    if miscounts(run.task_count, run.handler_count) | (Run::TICKS_MOST < run.clock) {
        return true;
    }
    let first = earliest_due(run.over, run.clock);
    let past_the_rows = places::places_used(run);
    let of_tasks = tasks_out(run, first);
    let of_handlers = handlers_out(run);
    let late = late_out(run);
    past_the_rows | of_tasks | of_handlers | late
}
