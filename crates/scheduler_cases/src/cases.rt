// Cases 13 and 14, and cases with a deadline before the next arrival.
use crate::said::{ask, say, step};
use scheduler::Run;
use std::io::Stdout;

// What a row brings at tick t where it arrives at 0 and each period.
fn beat(t: u64, cost: u32, period: u64) -> u32 {
    if t.is_multiple_of(period) { cost } else { 0 }
}

pub fn case_9() -> Run {
    Run::fresh(&[2, 5, 5, 4, 8, 8], &[1, 4]).run
}

// Case 13: case 9 with all rows arriving at 0 and each period. The run that it leaves is over.
pub fn case_13(out: Stdout) -> Run {
    say(out, b"case 13:");
    let mut run = case_9();
    for t in 0..10 {
        say(out, b" ");
        run = step(out, run, &[beat(t, 2, 5), beat(t, 4, 8), beat(t, 1, 4)]);
    }
    say(out, b"\n");
    run
}

// Case 14: case 6, task arriving at 0 and again at 2.
pub fn case_14(out: Stdout) {
    say(out, b"case 14: ");
    let first = step(out, Run::fresh(&[1, 3, 3], &[2, 10]).run, &[1, 0]);
    say(out, b" ");
    let second = step(out, first, &[0, 0]);
    say(out, b" ");
    step(out, second, &[1, 0]);
    say(out, b"\n");
}

// Task 1/4 with this deadline, handler 2/10.
pub fn sharp(deadline: u32) -> Run {
    Run::fresh(&[1, 4, deadline], &[2, 10]).run
}

// A run of two rows that bring c and d at 0 and each of their periods p and q, for so many ticks.
fn both_arrive(out: Stdout, fresh: Run, c: u32, p: u64, d: u32, q: u64, ticks: u64) {
    let mut run = fresh;
    for t in 0..ticks {
        say(out, b" ");
        run = step(out, run, &[beat(t, c, p), beat(t, d, q)]);
    }
    say(out, b"\n");
}

// Who gets a tick, and who is told late, where several would: the lowest row of tasks with one deadline, the earlier deadline of a later
// row, the first of two handlers, the first of two late tasks.
pub fn choices(out: Stdout) {
    ask(
        out,
        b"two tasks due at 4",
        Run::fresh(&[1, 4, 4, 1, 4, 4], &[]).run,
        &[1, 1],
    );
    ask(
        out,
        b"due at 8 and at 4",
        Run::fresh(&[1, 8, 8, 1, 4, 4], &[]).run,
        &[1, 1],
    );
    ask(
        out,
        b"two handlers",
        Run::fresh(&[1, 2, 2], &[1, 9, 1, 4]).run,
        &[1, 1, 1],
    );
    ask(
        out,
        b"two late",
        Run::fresh(&[1, 2, 2, 1, 1, 1, 1, 1, 1], &[1, 9]).run,
        &[1, 1, 1, 1],
    );
}

// A deadline before the next arrival: 2 of 4 ticks are too few beside the handler, 3 are enough.
pub fn deadlines(out: Stdout) {
    say(out, b"deadline 2 of 4:");
    both_arrive(out, sharp(2), 1, 4, 2, 10, 3);
    say(out, b"deadline 3 of 4:");
    both_arrive(out, sharp(3), 1, 4, 2, 10, 14);
    // Tasks 1/4 with deadline 4 and 1/6 with deadline 2: task 1 is due first, though it may come again later.
    say(out, b"due before it may come again:");
    both_arrive(out, Run::fresh(&[1, 4, 4, 1, 6, 2], &[]).run, 1, 4, 1, 6, 6);
}
