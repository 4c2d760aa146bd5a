// The tick: who runs, what that leaves owed, who is late.
ghost use Rattle.std.specs.Prelude.{◌≡◌, ◌≤◌};
ghost use Rattle.demand.specs.Limits.{tasks_most};
ghost use Rattle.scheduler.specs.Inside.Counted.{Fitting, Payable};
ghost use Rattle.scheduler.specs.Inside.Keys.{key_of, keys_on};
ghost use Rattle.scheduler.specs.Scans.{at};
ghost use Rattle.scheduler.specs.Steps.{step_refusal};
ghost use Rattle.scheduler.specs.Tick.{better, earliest, goes_to, paid, late_row, ticked_by};

use crate::sizes::PLACES;
use crate::{Ran, Run, Stepped, Ticked, arrivals, rows};
use demand::table::TASKS_MOST;

// By which number tasks are chosen: the earliest deadline runs first, or the shortest period. No closure, since what the keys are is read
// once a tick, before the search.
#[derive(Clone, Copy)]
pub enum Key {
    Deadline,
    Period,
}

// The task found so far, and its key.
#[derive(Clone, Copy)]
pub struct Best {
    pub row: usize,
    pub key: u64,
}

fn better(best: Option<Best>, row: usize, owed: u64, key: u64) -> Option<Best>
    ensures { result ≡ better best row owed key }
{
    if (0 < owed) & best.is_none_or(|b| key < b.key) {
        Some(Best { row, key })
    } else {
        best
    }
}

// Of the first n tasks, the one with the smallest key among those owed work, lowest row on a tie.
fn earliest(keys: &[u64; TASKS_MOST], owed: &[u64; PLACES], n: usize) -> Option<Best>
    requires { n ≤ tasks_most }
    ensures { result ≡ earliest (at keys.now) owed.now n }
{
    let mut best = None;
    for k in 0..n {
        best = better(best, k, owed[k], keys[k]);
    }
    best
}

// To the first handler row that is owed work, else to a task, else to nobody.
fn goes_to(keys: &[u64; TASKS_MOST], run: &Run) -> Ran
    requires { Fitting run.now.task_count run.now.handler_count }
    ensures { result ≡ goes_to (at keys.now) run.now.owed run.now.task_count run.now.handler_count }
{
    let n = run.task_count;
    for i in 0..run.handler_count {
        if 0 < run.owed[n + i] {
            return Ran::Handler { row: i };
        }
    }
    match earliest(keys, &run.owed, n) {
        Some(best) => Ran::Task { row: best.row },
        None => Ran::Idle,
    }
}

// The one to whom the tick goes by this key, of a run that the arrivals have changed.
fn chosen(run: &Run, key: Key) -> Ran
    requires { Fitting run.now.task_count run.now.handler_count }
    ensures { result ≡ goes_to (keys_on key run.now.tasks run.now.due) run.now.owed
        run.now.task_count run.now.handler_count }
{
    match key {
        Key::Deadline => goes_to(&run.due, run),
        Key::Period => goes_to(&rows::periods(run), run),
    }
}

// The tick takes one unit of the work of the one to whom it goes.
fn pay(owed: &mut [u64; PLACES], n: usize, ran: Ran)
    requires { (n ≤ tasks_most) × Payable owed.old n ran }
    ensures { owed.new ≡ paid owed.old n ran }
{
    match ran {
        Ran::Handler { row } => owed[n + row] -= 1,
        Ran::Task { row } => owed[row] -= 1,
        Ran::Idle => {}
    }
}

// The first task that is owed work at its deadline.
pub fn late_row(run: &Run) -> Option<usize>
    requires { run.now.task_count ≤ tasks_most }
    ensures { result ≡ late_row run.now.clock (at run.now.due) run.now.owed run.now.task_count }
{
    for k in 0..run.task_count {
        if (0 < run.owed[k]) & (run.due[k] == run.clock) {
            return Some(k);
        }
    }
    None
}

// An accepted step: arrivals, the tick, the clock, the late test.
pub fn ticked(run: Run, key: Key, arrivals: &[u32]) -> Stepped
    requires { step_refusal run arrivals.now ≡ 0 }
    ensures { result ≡ ticked_by (key_of key) run arrivals.now }
{
    let mut after = run;
    arrivals::move_next(&mut after.next, &run, arrivals);
    arrivals::move_due(&mut after.due, &run, arrivals);
    arrivals::add_work(&mut after.owed, arrivals);
    let ran = chosen(&after, key);
    pay(&mut after.owed, run.task_count, ran);
    after.clock += 1;
    let late = late_row(&after);
    after.late = late;
    after.over = late.is_some();
    Stepped {
        run: after,
        answer: Ok(Ticked { ran, late }),
    }
}
