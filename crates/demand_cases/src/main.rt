// Asks both demands and the margin of a list of tables, refused ones among them, and prints the figures.
#![tactic(auto)]

use demand::refusal::Refusal;
use demand::{Share, Spare};
use std::io::Stdout;

fn print_refusal(out: Stdout, refusal: Refusal) {
    console::say(&out, b"refused ");
    console::say_number(&out, u64::from(refusal.number()));
}

fn print_demand(out: Stdout, answer: Result<u64, Refusal>) {
    match answer {
        Ok(ticks) => {
            console::say_number(&out, ticks);
        }
        Err(refusal) => print_refusal(out, refusal),
    }
}

// The work that handlers leave over.
fn print_left(out: Stdout, left: u64) {
    console::say(&out, b" leaving ");
    console::say_number(&out, left);
}

fn print_handler(out: Stdout, answer: Result<Share, Refusal>) {
    match answer {
        Ok(share) => {
            console::say_number(&out, share.ticks);
            print_left(out, share.left);
        }
        Err(refusal) => print_refusal(out, refusal),
    }
}

fn print_margin(out: Stdout, answer: Result<Spare, Refusal>) {
    match answer {
        Ok(spare) => {
            if spare.ticks < 0 {
                console::say(&out, b"-");
            }
            console::say_number(&out, spare.ticks.unsigned_abs());
            print_left(out, spare.left);
        }
        Err(refusal) => print_refusal(out, refusal),
    }
}

// One line: what is asked, then f, D and the margin.
fn ask(out: Stdout, what: &[u8], tasks: &[u32], handlers: &[u32], l: u64) {
    console::say(&out, what);
    console::say(&out, b" at ");
    console::say_number(&out, l);
    console::say(&out, b": f ");
    print_handler(out, demand::handler_demand(tasks, handlers, l));
    console::say(&out, b", D ");
    print_demand(out, demand::task_demand(tasks, handlers, l));
    console::say(&out, b", margin ");
    print_margin(out, demand::margin(tasks, handlers, l));
    console::say(&out, b"\n");
}

// The cases of the paper in which f, D or the margin is named.
fn cases(out: Stdout) {
    ask(out, b"case 2", &[2, 4, 4], &[1, 2], 4);
    ask(out, b"case 3", &[1, 4, 4], &[2, 3], 4);
    ask(out, b"case 4", &[2, 4, 4], &[2, 3], 4);
    ask(out, b"case 5", &[1, 2, 2], &[2, 10], 2);
    ask(out, b"case 7", &[2, 4, 4], &[1, 4, 1, 4], 1);
    ask(out, b"case 7", &[2, 4, 4], &[1, 4, 1, 4], 2);
    ask(out, b"case 8", &[1, 1, 1], &[1, 1000000], 1);
    ask(out, b"case 9", &[2, 5, 5, 4, 8, 8], &[1, 4], 10);
    ask(out, b"case 10", &[3, 2, 2], &[], 2);
}

// Deadlines before the next arrival: on both sides of the first and of the second.
fn short_deadlines(out: Stdout) {
    ask(out, b"1 of 4 by 2", &[1, 4, 2], &[2, 10], 1);
    ask(out, b"1 of 4 by 2", &[1, 4, 2], &[2, 10], 2);
    ask(out, b"1 of 4 by 2", &[1, 4, 2], &[2, 10], 5);
    ask(out, b"1 of 4 by 2", &[1, 4, 2], &[2, 10], 6);
    ask(out, b"by the next tick", &[3, 5, 1, 2, 7, 4], &[], 11);
}

// The ends of the ranges.
fn ends(out: Stdout) {
    ask(out, b"at rest", &[2, 5, 5], &[1, 4], 0);
    ask(out, b"longest", &[1, 1, 1], &[1000000, 1], 1000000000);
    ask(out, b"dearest", &[1000000, 1, 1], &[], 1000000000);
    ask(
        out,
        b"dearest at once",
        &[1000000, 1000000, 1],
        &[],
        1000000000,
    );
    ask(
        out,
        b"rarest",
        &[1000000, 1000000, 1000000],
        &[1, 1000000],
        999999999,
    );
}

// f around whole periods of the handlers and at the limit (M-102): their work in a period below its ticks, as many, and above.
fn whole_periods(out: Stdout) {
    ask(out, b"2 of 6 and 1 of 4", &[1, 12, 12], &[2, 6, 1, 4], 11);
    ask(out, b"2 of 6 and 1 of 4", &[1, 12, 12], &[2, 6, 1, 4], 12);
    ask(out, b"2 of 6 and 1 of 4", &[1, 12, 12], &[2, 6, 1, 4], 13);
    ask(
        out,
        b"2 of 6 and 1 of 4",
        &[1, 12, 12],
        &[2, 6, 1, 4],
        999999999,
    );
    ask(
        out,
        b"2 of 6 and 1 of 4",
        &[1, 12, 12],
        &[2, 6, 1, 4],
        1000000000,
    );
    ask(out, b"1 of 2", &[1, 2, 2], &[1, 2], 1000000000);
    ask(
        out,
        b"1 of 2 and 2 of 4",
        &[1, 2, 2],
        &[1, 2, 2, 4],
        1000000000,
    );
    ask(
        out,
        b"1 of 2 and 3 of 4",
        &[1, 2, 2],
        &[1, 2, 3, 4],
        999999999,
    );
    ask(out, b"3 of 1000000", &[1, 2, 2], &[3, 1000000], 999000001);
    ask(
        out,
        b"multiple above the limit",
        &[1, 2, 2],
        &[1, 999983, 5, 999979],
        2000000,
    );
}

// Counts that are refused, and those beside them that are not.
fn counts(out: Stdout) {
    ask(out, b"tasks not in threes", &[2, 5, 5, 4], &[1, 4], 10);
    ask(out, b"odd handlers", &[2, 5, 5], &[1], 10);
    ask(out, b"no task", &[], &[1, 4], 10);
    ask(out, b"64 tasks", &[1; 192], &[], 10);
    ask(out, b"65 tasks", &[1; 195], &[], 10);
    ask(out, b"16 handlers", &[1, 1, 1], &[1; 32], 10);
    ask(out, b"17 handlers", &[1, 1, 1], &[1; 34], 10);
}

// Figures that are refused.
fn figures(out: Stdout) {
    ask(out, b"cost 0", &[0, 5, 5], &[], 10);
    ask(out, b"period 0", &[1, 5, 5], &[1, 0], 10);
    ask(out, b"cost 1000001", &[1000001, 5, 5], &[], 10);
    ask(out, b"period 1000001", &[1, 5, 5], &[1, 1000001], 10);
    ask(out, b"deadline 0", &[1, 5, 0], &[], 10);
    ask(out, b"deadline above its period", &[1, 5, 6], &[], 10);
    ask(out, b"too long", &[2, 5, 5], &[1, 4], 1000000001);
}

// The first of several refusals.
fn orders(out: Stdout) {
    ask(out, b"1 before 2", &[1; 196], &[], 10);
    ask(out, b"2 before 3", &[], &[0, 0], 10);
    ask(out, b"3 before 13", &[1, 5, 6], &[1, 0], 10);
    ask(out, b"13 before 5", &[1, 5, 6], &[], 1000000001);
    ask(out, b"3 before 5", &[0, 5, 5], &[], 1000000001);
}

fn main(rt: HostRuntime) {
    let out = rt.stdout();
    cases(out);
    short_deadlines(out);
    ends(out);
    whole_periods(out);
    counts(out);
    figures(out);
    orders(out);
}
