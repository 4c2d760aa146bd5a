// For tests and benchmarks in other languages: a run laid out in arrays that the caller lends.
// figures: task count, handler count, clock, over, late row and 1 (0 for none); then of the answer: code, who ran
// (0 nobody, 1 a handler, 2 a task), its row, late row and 1.
#![tactic(auto)]

mod numbers;

ghost use Rattle.std.specs.Prelude.{◌≡◌, ◌≤◌, ◌++◌, replicate};
ghost use Rattle.harness.specs.Numbers.{run_in, run_numbers, refused_numbers, late_number, left_by};
ghost use Rattle.harness.specs.Numbers.{LateRows, RefusedAs, FreshLaid, StepLaid};
ghost use Rattle.columns.specs.Order.{row_order};
ghost use Rattle.demand.specs.Limits.{tasks_most};
ghost use Rattle.demand.specs.Numbered.{refused};
ghost use Rattle.demand.specs.declared.table.Kind.TheVariants.{Task, Handler};
ghost use Rattle.machine.specs.Live.{due_of, period_of};
ghost use Rattle.scheduler.specs.Books.{busy_by};
ghost use Rattle.scheduler.specs.Start.{fresh_of};
ghost use Rattle.scheduler.specs.Steps.{step_of};

use crate::numbers::{FIGURES, TASKS_MOST};
use scheduler::sizes::{HANDLER_NUMBERS, PLACES, TASK_NUMBERS};
use scheduler::{Fresh, Ran, Run, Stepped};

// A fresh run, laid into the lent arrays.
fn lay_fresh(
    fresh: &Fresh,
    t: &mut [u32; TASK_NUMBERS],
    h: &mut [u32; HANDLER_NUMBERS],
    next: &mut [u64; PLACES],
    due: &mut [u64; TASKS_MOST],
    owed: &mut [u64; PLACES],
    figures: &mut [u64; FIGURES],
)
    requires { late_number fresh.now.run.late ≤ tasks_most }
    ensures { (t.new ≡ fresh.now.run.tasks) × (h.new ≡ fresh.now.run.handlers) × (next.new ≡ fresh.now.run.next)
        × (due.new ≡ fresh.now.run.due) × (owed.new ≡ fresh.now.run.owed)
        × (figures.new ≡ run_numbers fresh.now.run ++ refused_numbers (refused fresh.now.answer)) }
{
    *t = fresh.run.tasks;
    *h = fresh.run.handlers;
    *next = fresh.run.next;
    *due = fresh.run.due;
    *owed = fresh.run.owed;
    let code = numbers::start_code(fresh.answer);
    *figures = numbers::run_figures(&fresh.run, code, Ran::Idle, None);
}

// A step, laid into the lent arrays. A refused one leaves those of the run alone: they hold the run that stands beside it.
fn lay(
    stepped: &Stepped,
    next: &mut [u64; PLACES],
    due: &mut [u64; TASKS_MOST],
    owed: &mut [u64; PLACES],
    figures: &mut [u64; FIGURES],
)
    requires { LateRows stepped.now × RefusedAs stepped.now next.old due.old owed.old }
    ensures { (next.new ≡ stepped.now.run.next) × (due.new ≡ stepped.now.run.due) × (owed.new ≡ stepped.now.run.owed)
        × (figures.new ≡ left_by figures.old stepped.now) }
{
    match stepped.answer {
        Ok(ticked) => {
            *next = stepped.run.next;
            *due = stepped.run.due;
            *owed = stepped.run.owed;
            *figures = numbers::run_figures(&stepped.run, 0, ticked.ran, ticked.late);
        }
        Err(refusal) => *figures = numbers::refused_figures(figures, refusal.number()),
    }
}

// A fresh run, laid into the lent arrays.
#[unsafe(no_mangle)]
pub extern "C" fn harness_fresh(
    tasks: &[u32],
    handlers: &[u32],
    t: &mut [u32; TASK_NUMBERS],
    h: &mut [u32; HANDLER_NUMBERS],
    next: &mut [u64; PLACES],
    due: &mut [u64; TASKS_MOST],
    owed: &mut [u64; PLACES],
    figures: &mut [u64; FIGURES],
)
    ensures { FreshLaid tasks.now handlers.now t.new h.new next.new
        due.new owed.new figures.new }
{
    lay_fresh(&Run::fresh(tasks, handlers), t, h, next, due, owed, figures);
}

// The same of a table held by column.
#[unsafe(no_mangle)]
pub extern "C" fn harness_fresh_by_column(
    tasks: &[u32],
    handlers: &[u32],
    t: &mut [u32; TASK_NUMBERS],
    h: &mut [u32; HANDLER_NUMBERS],
    next: &mut [u64; PLACES],
    due: &mut [u64; TASKS_MOST],
    owed: &mut [u64; PLACES],
    figures: &mut [u64; FIGURES],
)
    ensures { FreshLaid (row_order Task tasks.now) (row_order Handler handlers.now)
        t.new h.new next.new due.new owed.new figures.new }
{
    let fresh = run_by_column::fresh(tasks, handlers);
    lay_fresh(&fresh, t, h, next, due, owed, figures);
}

// One step of the run in the lent arrays, whatever stands there. A refused one leaves all numbers of the run as they were.
#[unsafe(no_mangle)]
pub extern "C" fn harness_step(
    t: &[u32; TASK_NUMBERS],
    h: &[u32; HANDLER_NUMBERS],
    next: &mut [u64; PLACES],
    due: &mut [u64; TASKS_MOST],
    owed: &mut [u64; PLACES],
    figures: &mut [u64; FIGURES],
    arrivals: &[u32],
)
    ensures { StepLaid due_of (run_in t.now h.now next.old due.old owed.old
        figures.old) figures.old arrivals.now
        next.new due.new owed.new figures.new }
{
    let run = numbers::run_in(t, h, next, due, owed, figures);
    lay(&run.step(arrivals), next, due, owed, figures);
}

// The same by fixed priority.
#[unsafe(no_mangle)]
pub extern "C" fn harness_step_by_priority(
    t: &[u32; TASK_NUMBERS],
    h: &[u32; HANDLER_NUMBERS],
    next: &mut [u64; PLACES],
    due: &mut [u64; TASKS_MOST],
    owed: &mut [u64; PLACES],
    figures: &mut [u64; FIGURES],
    arrivals: &[u32],
)
    ensures { StepLaid period_of (run_in t.now h.now next.old due.old owed.old
        figures.old) figures.old arrivals.now
        next.new due.new owed.new figures.new }
{
    let run = numbers::run_in(t, h, next, due, owed, figures);
    lay(&run.step_by_priority(arrivals), next, due, owed, figures);
}

// A fresh run's first step, then `ticks` more with the same list each: how many of them were not idle.
#[unsafe(no_mangle)]
pub extern "C" fn harness_ticks(
    tasks: &[u32],
    handlers: &[u32],
    first: &[u32],
    rest: &[u32],
    ticks: u32,
) -> u64
    ensures { result ≡ busy_by due_of (replicate ticks rest.now)
        (step_of (fresh_of tasks.now handlers.now).run first.now).run }
{
    let mut run = Run::fresh(tasks, handlers).run.step(first).run;
    let mut count = 0;
    for i in 0..ticks {
        let stepped = run.step(rest);
        run = stepped.run;
        count += numbers::busy(stepped.answer);
    }
    count
}
