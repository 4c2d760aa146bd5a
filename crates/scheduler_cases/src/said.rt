// Steps, and what is printed of them.
use scheduler::{Ran, Run};
use std::io::Stdout;

pub fn say(out: Stdout, text: &[u8]) {
    console::say(&out, text);
}

fn print_ran(out: Stdout, ran: Ran) {
    match ran {
        Ran::Handler { row } => {
            say(out, b"H");
            // u64 has no From of usize.
            console::say_number(&out, row as u64);
        }
        Ran::Task { row } => {
            say(out, b"T");
            console::say_number(&out, row as u64);
        }
        Ran::Idle => say(out, b"idle"),
    }
}

fn print_late(out: Stdout, late: Option<usize>, clock: u64) {
    if let Some(row) = late {
        say(out, b", task ");
        console::say_number(&out, row as u64);
        say(out, b" late at clock ");
        console::say_number(&out, clock);
    }
}

// One step: who runs, and who is late at the next clock, or the refusal. The next run comes back.
pub fn step(out: Stdout, run: Run, arrivals: &[u32]) -> Run {
    let stepped = run.step(arrivals);
    match stepped.answer {
        Ok(ticked) => {
            print_ran(out, ticked.ran);
            print_late(out, ticked.late, stepped.run.clock);
        }
        Err(refusal) => {
            say(out, b"refused ");
            console::say_number(&out, u64::from(refusal.number()));
        }
    }
    stepped.run
}

// A line of its own for one step.
pub fn ask(out: Stdout, what: &[u8], run: Run, arrivals: &[u32]) {
    say(out, what);
    say(out, b": ");
    step(out, run, arrivals);
    say(out, b"\n");
}
