// Our own scheduler's segments of tables of 01, and runs advanced over ticks without arrivals.
#![tactic(auto)]

use advance::Advanced;
use demand::refusal::Refusal;
use own_segments::Answer;
use scheduler::Run;
use std::io::Stdout;

fn say(out: Stdout, text: &[u8]) {
    console::say(&out, text);
}

fn number(out: Stdout, n: u64) {
    console::say_number(&out, n);
}

// The first so many segments of a lent list: kind, row, from and to.
fn segments(out: Stdout, count: usize, list: &[u64]) {
    for segment in list.chunks_exact(4).take(count) {
        say(out, if segment[0] == 0 { b" T" } else { b" H" });
        number(out, segment[1]);
        say(out, b":");
        number(out, segment[2]);
        say(out, b"-");
        number(out, segment[3]);
    }
}

fn told(out: Stdout, answer: Result<Answer, Refusal>, list: &[u64]) {
    match answer {
        Ok(Answer::Segments { count, end }) => {
            // u64 has no From of usize.
            number(out, count as u64);
            say(out, b" segments to clock ");
            number(out, end);
            segments(out, count, list);
        }
        Ok(Answer::TooMany) => say(out, b"too many"),
        Err(refusal) => {
            say(out, b"refusal ");
            number(out, u64::from(refusal.number()));
        }
    }
    say(out, b"\n");
}

fn own(out: Stdout, tasks: &[u32], handlers: &[u32], span: u64) {
    let mut list = [7u64; 64];
    let answer = own_segments::of_table(tasks, handlers, span, &mut list);
    told(out, answer, &list);
}

fn advanced(out: Stdout, a: Advanced) -> Run {
    number(out, a.ticks);
    say(out, b" ticks, number ");
    number(out, a.refusal.map_or(0, |r| u64::from(r.number())));
    if let Some(row) = a.run.late {
        say(out, b", task ");
        // u64 has no From of usize.
        number(out, row as u64);
        say(out, b" late");
    }
    say(out, b" at clock ");
    number(out, a.run.clock);
    say(out, b"\n");
    a.run
}

// Case 9 from a tick with all arrivals: on to the first deadline that is missed, and on from there.
fn runs(out: Stdout) {
    let fresh = Run::fresh(&[2u32, 5, 5, 4, 8, 8], &[1u32, 4]).run;
    let begun = fresh.step(&[2u32, 4, 1]).run;
    let a = advanced(out, advance::advance(begun, 0));
    let b = advanced(out, advance::advance(a, 3));
    let c = advanced(out, advance::advance(b, 999999000));
    let d = advanced(out, advance::advance(c, 1000));
    let late = Run::fresh(&[9u32, 5, 5], &[]).run.step(&[9u32]).run;
    let over = advanced(out, advance::advance(late, 10));
    let still = advanced(out, advance::advance(over, 0));
}

fn main(rt: HostRuntime) {
    let out = rt.stdout();
    own(out, &[2u32, 5, 5, 4, 8, 8], &[1u32, 4], 10);
    own(out, &[2u32, 5, 5, 4, 8, 8], &[1u32, 4], 12);
    own(out, &[1u32, 3, 3], &[2u32, 10], 30);
    own(out, &[1u32, 2, 2], &[], 2);
    own(out, &[1u32, 2, 2], &[], 3);
    own(out, &[1u32, 1, 1], &[], 0);
    own(out, &[5u32, 5, 5, 1, 7, 7], &[], 35);
    own(out, &[1u32, 2, 2, 1, 1000, 1000], &[], 1000);
    runs(out);
}
