// A run and an answer as numbers.
ghost use Rattle.std.specs.Prelude.{◌≡◌, ◌≤◌};
ghost use Rattle.demand.specs.Limits.{tasks_most};
ghost use Rattle.demand.specs.Numbered.{refused};
ghost use Rattle.harness.specs.Numbers.{late_of, late_number, over_of, over_number, ran_number, layout, refused_layout, run_in};
ghost use Rattle.scheduler.specs.Books.{busy};
ghost use Rattle.scheduler.specs.Promise.{row_ran};

use demand::refusal::Refusal;
use scheduler::sizes::{HANDLER_NUMBERS, PLACES, TASK_NUMBERS};
use scheduler::{Ran, Run, Ticked};

// The tasks that a run has room for.
pub const TASKS_MOST: usize = Run::TASKS_MOST;

// How many figures a run and an answer have.
pub const FIGURES: usize = 9;

// The late row, from it and 1, or 0 for nobody.
pub fn late_of(number: u64) -> Option<usize>
    ensures { result ≡ late_of number }
{
    if number == 0 {
        None
    } else {
        // usize has no From of u64; C hands over a u64.
        Some((number - 1) as usize)
    }
}

// The row and 1 of a task, 0 for nobody.
pub fn late_number(late: Option<usize>) -> u64
    requires { late_number late ≤ tasks_most }
    ensures { result ≡ late_number late }
{
    match late {
        None => 0,
        // u64 has no From of usize.
        Some(row) => row as u64 + 1,
    }
}

pub fn over_of(number: u64) -> bool
    ensures { result ≡ over_of number }
{
    number != 0
}

pub fn over_number(over: bool) -> u64
    ensures { result ≡ over_number over }
{
    u64::from(over)
}

// Who ran: 0 nobody, 1 a handler, 2 a task.
pub fn ran_number(ran: Ran) -> u64
    ensures { result ≡ ran_number ran }
{
    match ran {
        Ran::Handler { .. } => 1,
        Ran::Task { .. } => 2,
        Ran::Idle => 0,
    }
}

pub fn row_number(ran: Ran) -> u64
    ensures { result ≡ row_ran ran }
{
    match ran {
        // As above: a usize in a u64.
        Ran::Handler { row } | Ran::Task { row } => row as u64,
        Ran::Idle => 0,
    }
}

pub fn start_code(answer: Result<(), Refusal>) -> u64
    ensures { result ≡ refused answer }
{
    match answer {
        Ok(()) => 0,
        Err(refusal) => u64::from(refusal.number()),
    }
}

// 1 for a tick that was not idle.
pub fn busy(answer: Result<Ticked, Refusal>) -> u64
    ensures { result ≡ busy answer }
{
    match answer {
        Ok(ticked) => u64::from(ticked.ran != Ran::Idle),
        Err(_) => 0,
    }
}

// The run that lent arrays tell, whatever stands there.
pub fn run_in(
    t: &[u32; TASK_NUMBERS],
    h: &[u32; HANDLER_NUMBERS],
    next: &[u64; PLACES],
    due: &[u64; TASKS_MOST],
    owed: &[u64; PLACES],
    figures: &[u64; FIGURES],
) -> Run
    ensures { result ≡ run_in t.now h.now next.now due.now owed.now
        figures.now }
{
    Run {
        tasks: *t,
        handlers: *h,
        // usize has no From of u64; a count that is too large is refused by 6 all the same.
        task_count: figures[0] as usize,
        handler_count: figures[1] as usize,
        clock: figures[2],
        next: *next,
        due: *due,
        owed: *owed,
        over: over_of(figures[3]),
        late: late_of(figures[4]),
    }
}

// The figures of a refused step: those of the run as they were.
pub fn refused_figures(old: &[u64; FIGURES], number: u32) -> [u64; FIGURES]
    ensures { result ≡ refused_layout old.now number }
{
    [
        old[0],
        old[1],
        old[2],
        old[3],
        old[4],
        u64::from(number),
        0,
        0,
        0,
    ]
}

// The figures of a run, and of the answer beside it.
pub fn run_figures(run: &Run, code: u64, ran: Ran, late: Option<usize>) -> [u64; FIGURES]
    requires { (late_number run.now.late ≤ tasks_most) × (late_number late ≤ tasks_most) }
    ensures { result ≡ layout run.now code ran late }
{
    [
        // As above: a usize in a u64.
        run.task_count as u64,
        run.handler_count as u64,
        run.clock,
        over_number(run.over),
        late_number(run.late),
        code,
        ran_number(ran),
        row_number(ran),
        late_number(late),
    ]
}
