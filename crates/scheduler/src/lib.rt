// The scheduler, one tick at a time: a run is a value, which a step takes and hands back.
#![tactic(auto)]

mod arrivals;
mod begin;
mod bounds;
mod places;
mod refusal;
mod rows;
pub mod sizes;
mod tick;

ghost use Rattle.machine.specs.Live.{due_of, period_of};
ghost use Rattle.scheduler.specs.Inside.Keys.{key_of};
ghost use Rattle.scheduler.specs.Promise.{FreshSays, StepSays};

use crate::sizes::{HANDLER_NUMBERS, PLACES, TASK_NUMBERS};
use crate::tick::Key;
use demand::refusal::Refusal;
use demand::table;
use demand::table::TASKS_MOST;

// A run: its table, the clock, for each row the next legal arrival and the work owed (handlers behind tasks), for each task the
// tick by which its last job must be done, whether it is over, and the row of the task that was late. Arrays with counts beside them, since
// there is no heap, and refusal 6 speaks of the places past the last row.
#[derive(Clone, Copy, Debug, PartialEq, Eq)]
pub struct Run {
    pub tasks: [u32; TASK_NUMBERS],
    pub handlers: [u32; HANDLER_NUMBERS],
    pub task_count: usize,
    pub handler_count: usize,
    pub clock: u64,
    pub next: [u64; PLACES],
    pub due: [u64; TASKS_MOST],
    pub owed: [u64; PLACES],
    pub over: bool,
    pub late: Option<usize>,
}

// Who ran.
#[derive(Clone, Copy, Debug, PartialEq, Eq)]
pub enum Ran {
    Handler { row: usize },
    Task { row: usize },
    Idle,
}

// Who ran, and the row of the task that is late, if one is.
#[derive(Clone, Copy, Debug, PartialEq, Eq)]
pub struct Ticked {
    pub ran: Ran,
    pub late: Option<usize>,
}

// The next run beside the answer.
#[derive(Clone, Copy, Debug, PartialEq, Eq)]
pub struct Stepped {
    pub run: Run,
    pub answer: Result<Ticked, Refusal>,
}

// A fresh run beside the answer.
#[derive(Clone, Copy, Debug, PartialEq, Eq)]
pub struct Fresh {
    pub run: Run,
    pub answer: Result<(), Refusal>,
}

impl Run {
    pub const TASKS_MOST: usize = table::TASKS_MOST;

    pub const HANDLERS_MOST: usize = table::HANDLERS_MOST;

    pub const TICKS_MOST: u64 = table::TICKS_MOST;

    // A fresh run of a table: clock 0, all arrivals, deadlines and work 0, not over.
    pub fn fresh(tasks: &[u32], handlers: &[u32]) -> Fresh
        ensures { FreshSays tasks.now handlers.now result }
    {
        match demand::refusal::of_table(tasks, handlers) {
            Ok(()) => Fresh {
                run: begin::fresh_run(tasks, handlers),
                answer: Ok(()),
            },
            Err(refusal) => Fresh {
                run: begin::no_run(),
                answer: Err(refusal),
            },
        }
    }

    // One tick, with one number per row, tasks then handlers: 0 for no arrival, else the work that it brings.
    pub fn step(self, arrivals: &[u32]) -> Stepped
        ensures { StepSays due_of self arrivals.now result }
    {
        step_by(self, Key::Deadline, arrivals)
    }

    // The same by fixed priority: of the tasks owed work the one with the shortest period runs, the lowest row on a tie.
    pub fn step_by_priority(self, arrivals: &[u32]) -> Stepped
        ensures { StepSays period_of self arrivals.now result }
    {
        step_by(self, Key::Period, arrivals)
    }
}

// A step where of the tasks owed work the one with the smallest key runs.
fn step_by(run: Run, key: Key, arrivals: &[u32]) -> Stepped
    ensures { StepSays (key_of key) run arrivals.now result }
{
    match refusal::of_step(&run, arrivals) {
        Ok(()) => tick::ticked(run, key, arrivals),
        Err(why) => Stepped {
            run,
            answer: Err(why),
        },
    }
}
