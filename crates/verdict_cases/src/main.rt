// Prints the verdict on cases 1 to 12 of the paper and on tables made to be hard, in the layout of the printed line.
#![tactic(auto)]

use demand::table::{HANDLER_NUMBERS, HANDLERS_MOST, TASK_NUMBERS, TASKS_MOST};
use std::io::Stdout;

// Ten tasks of 1/10.
const TEN_ALIKE: [u32; 30] = [
    1, 10, 10, 1, 10, 10, 1, 10, 10, 1, 10, 10, 1, 10, 10, 1, 10, 10, 1, 10, 10, 1, 10, 10, 1, 10,
    10, 1, 10, 10,
];

// The word that a number stands for.
fn print_word(out: Stdout, number: u64) {
    match number {
        0 => {
            console::say(&out, b": fits");
        }
        1 => {
            console::say(&out, b": misses");
        }
        _ => {
            console::say(&out, b": refused");
        }
    }
}

fn judge(out: Stdout, what: &[u8], tasks: &[u32], handlers: &[u32]) {
    console::say(&out, what);
    let numbers = verdict::numbers(verdict::verdict(tasks, handlers));
    print_word(out, numbers[0]);
    for number in &numbers[1..] {
        console::say(&out, b",");
        console::say_number(&out, *number);
    }
    console::say(&out, b"\n");
}

fn cases(out: Stdout) {
    judge(out, b"case 1", &TEN_ALIKE, &[]);
    judge(out, b"case 2", &[2, 4, 4], &[1, 2]);
    judge(out, b"case 3", &[1, 4, 4], &[2, 3]);
    judge(out, b"case 4", &[2, 4, 4], &[2, 3]);
    judge(out, b"case 5", &[1, 2, 2], &[2, 10]);
    judge(out, b"case 6", &[1, 3, 3], &[2, 10]);
    judge(out, b"case 7", &[2, 4, 4], &[1, 4, 1, 4]);
    judge(out, b"case 8", &[1, 1, 1], &[1, 1000000]);
    judge(out, b"case 9", &[2, 5, 5, 4, 8, 8], &[1, 4]);
    judge(out, b"case 10", &[3, 2, 2], &[]);
    judge(out, b"case 11", &[1, 1000, 1000, 1, 999999, 999999], &[]);
    judge(out, b"case 12", &[1, 1001, 1001, 1, 1000000, 1000000], &[]);
    judge(out, b"work left over", &[1, 2, 2], &[5, 10]);
}

// 64 tasks, all alike.
fn tasks_alike(cost: u32, period: u32, deadline: u32) -> [u32; TASK_NUMBERS] {
    let mut rows = [cost; TASK_NUMBERS];
    for k in 0..TASKS_MOST {
        rows[3 * k + 1] = period;
        rows[3 * k + 2] = deadline;
    }
    rows
}

// 16 handlers, all alike.
fn handlers_alike(cost: u32, period: u32) -> [u32; HANDLER_NUMBERS] {
    let mut rows = [cost; HANDLER_NUMBERS];
    for k in 0..HANDLERS_MOST {
        rows[2 * k + 1] = period;
    }
    rows
}

// Deadlines before the next arrival: the cases of the list in the verdict's statements, and both ends of the range.
fn short_deadlines(out: Stdout) {
    judge(out, b"two jobs for one tick", &[1, 4, 1, 1, 4, 1], &[]);
    judge(out, b"a tick each", &[1, 4, 1, 1, 4, 2], &[]);
    judge(
        out,
        b"no multiple of a period",
        &[2, 5, 3, 2, 7, 4],
        &[1, 10],
    );
    judge(
        out,
        b"only the new bound admits it",
        &[2, 10, 3, 3, 10, 5],
        &[1, 20],
    );
    judge(out, b"short and in time", &[1, 4, 2, 1, 4, 3], &[1, 10]);
    judge(out, b"deadline 0", &[1, 4, 0], &[]);
    judge(out, b"deadline above its period", &[1, 4, 5], &[]);
    judge(out, b"3 before 13", &[0, 4, 5], &[]);
    judge(out, b"13 before 4", &[1, 1001, 1002, 1, 1000000, 1], &[]);
    judge(
        out,
        b"full, one deadline a tick short",
        &[500, 1000, 999, 500000, 1000000, 1000000],
        &[],
    );
    judge(
        out,
        b"far apart and at once",
        &[1, 1000000, 1, 1, 999, 2],
        &[],
    );
}

// W equal to H, and H near its limit.
fn hostile(out: Stdout) {
    judge(
        out,
        b"above full by one",
        &[999, 1000, 1000, 1000, 999999, 999999],
        &[],
    );
    judge(
        out,
        b"full, no handlers",
        &[500, 1000, 1000, 500000, 1000000, 1000000],
        &[],
    );
    judge(
        out,
        b"full, long period",
        &[1, 1000, 1000],
        &[998000, 1000000, 1000, 1000000],
    );
    judge(
        out,
        b"full, handlers spread",
        &[199999, 1000000, 1000000],
        &[1, 5, 3, 5, 1, 1000000],
    );
    judge(
        out,
        b"H near its limit",
        &[300, 1000, 1000, 300, 999, 999],
        &[390, 1001],
    );
    judge(
        out,
        b"H above its limit by the handlers",
        &[1, 1000000, 1000000],
        &[1, 999999],
    );
    judge(
        out,
        b"light and late",
        &[1000, 1000000, 1000000, 1, 999, 999],
        &[999, 1000000],
    );
}

// Every row that a table may have, and tables that have none.
fn most_and_least(out: Stdout) {
    judge(
        out,
        b"64 and 16, light",
        &tasks_alike(1000, 1000000, 1000000),
        &handlers_alike(1000, 500000),
    );
    judge(
        out,
        b"64 and 16, full",
        &tasks_alike(10000, 1000000, 1000000),
        &handlers_alike(22500, 1000000),
    );
    judge(
        out,
        b"64 and 16, light and just in time",
        &tasks_alike(1000, 1000000, 80000),
        &handlers_alike(1000, 500000),
    );
    judge(
        out,
        b"64 and 16, light and a tick too short",
        &tasks_alike(1000, 1000000, 79999),
        &handlers_alike(1000, 500000),
    );
    judge(
        out,
        b"64 and 16, overfull",
        &tasks_alike(1000000, 1, 1),
        &handlers_alike(1000000, 1),
    );
    judge(out, b"tasks not in threes", &[1, 2, 2, 3], &[]);
    judge(out, b"no task", &[], &[1, 1]);
    judge(out, b"period 0", &[1, 0, 0], &[]);
}

fn main(rt: HostRuntime) {
    let out = rt.stdout();
    cases(out);
    short_deadlines(out);
    hostile(out);
    most_and_least(out);
}
