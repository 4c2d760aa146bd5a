// Each clause of refusal 6.
use crate::{cases, made, said};
use scheduler::Run;
use std::io::Stdout;

// The table.
pub fn table_clauses(out: Stdout) {
    let run = cases::case_9();
    said::ask(
        out,
        b"6, what stands beside a refused fresh run",
        Run::fresh(&[0, 5, 5], &[1, 4]).run,
        &[],
    );
    said::ask(out, b"6, no task", made::with_counts(run, 0, 1), &[0]);
    said::ask(
        out,
        b"6, 65 tasks",
        made::with_counts(run, 65, 1),
        &[0, 0, 0],
    );
    said::ask(
        out,
        b"6, 17 handlers",
        made::with_counts(run, 2, 17),
        &[0, 0, 0],
    );
    said::ask(
        out,
        b"6, cost 0",
        made::with_task_number(run, 3, 0),
        &[0, 0, 0],
    );
    said::ask(
        out,
        b"6, period 1000001",
        made::with_handler_number(run, 1, 1000001),
        &[0, 0, 0],
    );
    said::ask(
        out,
        b"6, a deadline of its own of 0",
        made::with_task_number(run, 2, 0),
        &[0, 0, 0],
    );
    said::ask(
        out,
        b"6, a deadline of its own above the period",
        made::with_task_number(run, 2, 6),
        &[0, 0, 0],
    );
}

// A place past the last row that isn't 0.
pub fn place_clauses(out: Stdout) {
    let run = cases::case_9();
    said::ask(
        out,
        b"6, a number past the last task",
        made::with_task_number(run, 6, 1),
        &[0, 0, 0],
    );
    said::ask(
        out,
        b"6, a number past the last handler",
        made::with_handler_number(run, 31, 1),
        &[0, 0, 0],
    );
    said::ask(
        out,
        b"6, a next arrival past the last row",
        made::with_next(run, 3, 1),
        &[0, 0, 0],
    );
    said::ask(
        out,
        b"6, a deadline past the last task",
        made::with_due(made::with_next(run, 2, 1), 2, 1),
        &[0, 0, 0],
    );
    said::ask(
        out,
        b"6, work past the last row",
        made::with_owed(run, 79, 1),
        &[0, 0, 0],
    );
}

// The clock, and what a row has.
pub fn row_clauses(out: Stdout) {
    let run = cases::case_9();
    said::ask(
        out,
        b"6, clock 1000000001",
        made::with_clock(run, 1000000001),
        &[0, 0, 0],
    );
    said::ask(
        out,
        b"6, a next arrival above clock + period",
        made::with_next(run, 0, 6),
        &[0, 0, 0],
    );
    said::ask(
        out,
        b"6, a deadline above clock + the row's own",
        made::with_due(made::with_next(cases::sharp(2), 0, 4), 0, 3),
        &[0, 0],
    );
    said::ask(
        out,
        b"6, a deadline after the next arrival",
        made::with_due(made::with_next(cases::sharp(2), 0, 1), 0, 2),
        &[0, 0],
    );
    said::ask(
        out,
        b"6, a task owed more than its cost",
        made::with_owed(made::with_due(made::with_next(run, 0, 5), 0, 5), 0, 3),
        &[0, 0, 0],
    );
    said::ask(
        out,
        b"6, a handler owed more than clock times cost",
        made::with_owed(run, 2, 1),
        &[0, 0, 0],
    );
}

// The clauses about deadlines and the late row.
pub fn late_clauses(out: Stdout) {
    let run = cases::case_9();
    said::ask(
        out,
        b"6, a deadline at the clock",
        made::due_now(),
        &[0, 0, 0],
    );
    let over = made::with_late(made::due_now(), true, Some(0));
    said::ask(
        out,
        b"6, over, a deadline before the clock",
        made::with_clock(over, 6),
        &[0, 0, 0],
    );
    said::ask(
        out,
        b"6, over, another row late",
        made::with_late(made::due_now(), true, Some(1)),
        &[0, 0, 0],
    );
    said::ask(
        out,
        b"6, over, nobody late",
        made::with_late(made::due_now(), true, None),
        &[0, 0, 0],
    );
    said::ask(
        out,
        b"6, over, no task at its deadline",
        made::with_late(run, true, Some(0)),
        &[0, 0, 0],
    );
    said::ask(
        out,
        b"6, not over, a row late",
        made::with_late(run, false, Some(0)),
        &[0, 0, 0],
    );
}
