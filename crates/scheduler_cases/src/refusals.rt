// Refusals 7 to 11, and the edges of each.
use crate::{cases, made, said};
use scheduler::Run;
use std::io::Stdout;

pub fn later_refusals(out: Stdout, over: Run) {
    let run = cases::case_9();
    said::ask(out, b"7, over after case 13", over, &[0, 0, 0]);
    said::ask(
        out,
        b"7, over and in bounds",
        made::with_late(made::due_now(), true, Some(0)),
        &[0, 0, 0],
    );
    said::ask(
        out,
        b"8, clock 1000000000",
        made::with_clock(run, 1000000000),
        &[0, 0, 0],
    );
    said::ask(out, b"9, too few numbers", run, &[0, 0]);
    said::ask(out, b"9, too many numbers", run, &[0, 0, 0, 0]);
    said::ask(
        out,
        b"10, task 1 too soon",
        made::with_next(run, 1, 1),
        &[2, 4, 0],
    );
    said::ask(out, b"11, task 0 brings 3", run, &[3, 0, 0]);
    said::ask(out, b"11, handler 0 brings 2", run, &[0, 0, 2]);
}

// The lowest of several, and steps at the edge of each refusal.
pub fn edges(out: Stdout) {
    let run = cases::case_9();
    said::ask(out, b"6 before 9", made::with_clock(run, 1000000001), &[0]);
    said::ask(out, b"7 before 8", made::over_at_last(), &[0, 0, 0]);
    said::ask(
        out,
        b"7 before 9",
        made::with_late(made::due_now(), true, Some(0)),
        &[0],
    );
    said::ask(out, b"8 before 9", made::with_clock(run, 1000000000), &[0]);
    said::ask(out, b"9 before 10", made::with_next(run, 1, 1), &[0, 4]);
    said::ask(out, b"10 before 11", made::with_next(run, 1, 1), &[3, 4, 0]);
    said::ask(
        out,
        b"a next arrival at clock + period",
        made::with_next(run, 0, 5),
        &[0, 4, 0],
    );
    said::ask(
        out,
        b"a deadline at clock + the row's own",
        made::with_due(made::with_next(cases::sharp(2), 0, 4), 0, 2),
        &[0, 2],
    );
    said::ask(
        out,
        b"a handler owed clock times cost",
        made::with_owed(made::with_clock(run, 3), 2, 3),
        &[0, 0, 0],
    );
    said::ask(
        out,
        b"the last tick",
        made::with_clock(run, 999999999),
        &[0, 0, 0],
    );
    said::ask(out, b"nothing to do", run, &[0, 0, 0]);
}
