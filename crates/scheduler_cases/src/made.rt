// Runs made elsewhere: a run with one thing changed.
use crate::cases;
use scheduler::Run;
use scheduler::sizes::{HANDLER_NUMBERS, PLACES, TASK_NUMBERS};

pub fn with_counts(run: Run, task_count: usize, handler_count: usize) -> Run {
    Run {
        task_count,
        handler_count,
        ..run
    }
}

pub fn with_clock(run: Run, clock: u64) -> Run {
    Run { clock, ..run }
}

pub fn with_task_number(run: Run, k: usize, x: u32) -> Run {
    let mut r = run;
    if k < TASK_NUMBERS {
        r.tasks[k] = x;
    }
    r
}

pub fn with_handler_number(run: Run, k: usize, x: u32) -> Run {
    let mut r = run;
    if k < HANDLER_NUMBERS {
        r.handlers[k] = x;
    }
    r
}

pub fn with_next(run: Run, k: usize, x: u64) -> Run {
    let mut r = run;
    if k < PLACES {
        r.next[k] = x;
    }
    r
}

pub fn with_due(run: Run, k: usize, x: u64) -> Run {
    let mut r = run;
    if k < Run::TASKS_MOST {
        r.due[k] = x;
    }
    r
}

pub fn with_owed(run: Run, k: usize, x: u64) -> Run {
    let mut r = run;
    if k < PLACES {
        r.owed[k] = x;
    }
    r
}

pub fn with_late(run: Run, over: bool, late: Option<usize>) -> Run {
    Run { over, late, ..run }
}

// Task 0, of cost 2 and period 5, owed 1 and due at 1000000000, at that clock, over and late.
pub fn over_at_last() -> Run {
    let last = 1000000000;
    let due = with_owed(with_due(with_next(cases::case_9(), 0, last), 0, last), 0, 1);
    with_late(with_clock(due, last), true, Some(0))
}

// Task 0, of cost 2 and period 5, owed 1 and due at 5, at clock 5.
pub fn due_now() -> Run {
    with_clock(
        with_owed(with_due(with_next(cases::case_9(), 0, 5), 0, 5), 0, 1),
        5,
    )
}
