// Arrivals: refusals 10 and 11, and what the arrivals of an accepted step change.
ghost use Rattle.std.specs.Prelude.{◌≡◌, ◌+◌, ◌≤◌, length};
ghost use Rattle.demand.specs.Limits.{figure_most, ticks_most};
ghost use Rattle.scheduler.specs.Inside.Counted.{Fitting, TableFair, OwedInWord};
ghost use Rattle.scheduler.specs.Runs.{row_places, row_in, row_count};
ghost use Rattle.scheduler.specs.Scans.{any};
ghost use Rattle.scheduler.specs.Steps.{early, heavy};
ghost use Rattle.scheduler.specs.Tick.{ahead, next_arrived, due_arrived, owed_arrived};

use crate::sizes::PLACES;
use crate::{Run, rows};
use demand::table::TASKS_MOST;

// Does an arrival come before its row's next legal tick?
pub fn some_early(run: &Run, arrivals: &[u32]) -> bool
    requires { length arrivals.now ≤ row_places }
    ensures { result ≡ any (early run.now.clock run.now.next arrivals.now) (length arrivals.now) }
{
    let mut bad = false;
    for (k, w) in arrivals.iter().enumerate() {
        bad |= (*w != 0) & (run.clock < run.next[k]);
    }
    bad
}

// Does an arrival bring more than its row's cost?
pub fn some_heavy(run: &Run, arrivals: &[u32]) -> bool
    requires { Fitting run.now.task_count run.now.handler_count × (length arrivals.now ≡ row_count run.now) }
    ensures { result ≡ any (heavy (row_in run.now) arrivals.now) (length arrivals.now) }
{
    let mut bad = false;
    for (k, w) in arrivals.iter().enumerate() {
        bad |= rows::row_at(run, k).cost < u64::from(*w);
    }
    bad
}

// Arrivals add their work.
pub fn add_work(owed: &mut [u64; PLACES], arrivals: &[u32])
    requires { (length arrivals.now ≤ row_places) × OwedInWord owed.old (length arrivals.now) }
    ensures { owed.new ≡ owed_arrived arrivals.now (length arrivals.now) owed.old }
{
    for (k, w) in arrivals.iter().enumerate() {
        owed[k] += u64::from(*w);
    }
}

// An arrival of w puts a tick so many ticks ahead of the clock; without one the old tick stays.
fn ahead(clock: u64, ticks: u64, w: u32, old: u64) -> u64
    requires { (clock ≤ ticks_most) × (ticks ≤ figure_most) }
    ensures { result ≡ ahead clock ticks w old }
{
    if w == 0 { old } else { clock + ticks }
}

// An arrival makes its row's next legal arrival clock + period.
pub fn move_next(next: &mut [u64; PLACES], run: &Run, arrivals: &[u32])
    requires { TableFair run.now.tasks run.now.handlers run.now.task_count run.now.handler_count
        × (run.now.clock ≤ ticks_most) × (length arrivals.now ≡ row_count run.now) }
    ensures { next.new ≡ next_arrived run.now.clock (row_in run.now) arrivals.now (length arrivals.now) next.old }
{
    for (k, w) in arrivals.iter().enumerate() {
        let row = rows::row_at(run, k);
        next[k] = ahead(run.clock, row.period, *w, next[k]);
    }
}

// An arrival makes its task's deadline clock + the task's own.
pub fn move_due(due: &mut [u64; TASKS_MOST], run: &Run, arrivals: &[u32])
    requires { TableFair run.now.tasks run.now.handlers run.now.task_count run.now.handler_count
        × (run.now.clock ≤ ticks_most) × (length arrivals.now ≡ row_count run.now) }
    ensures { due.new ≡ due_arrived run.now.clock (row_in run.now) arrivals.now run.now.task_count due.old }
{
    for k in 0..run.task_count {
        let row = rows::row_at(run, k);
        due[k] = ahead(run.clock, row.deadline, arrivals[k], due[k]);
    }
}
