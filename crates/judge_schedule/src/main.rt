// Reads a table from standard input; the first argument names a schedule file, the second is the span. Prints two lines: whether the
// schedule is accepted, and if not, the first tick at which a rule is broken. On a refusal its number and English line go to standard
// error. Where a file could not be read to its end, or the lines not written whole, a line on standard error says so.
#![tactic(auto)]

use layout::reader::FILE_MOST;
use std::fs::File;

// One byte more than a table file may have is read, so that a longer one is known as such.
const TABLE_MOST: usize = FILE_MOST + 1;

// One byte more than the longest file of 2,048 segments: the header's 11 bytes, 35 for each line, and the last CRLF.
const SCHEDULE_MOST: usize = 71_694;

// The longest name of a file.
const PATH_MOST: usize = 4096;

// The longest span that is read whole; a longer one is no span.
const SPAN_MOST: usize = 16;

fn main(rt: HostRuntime) {
    let mut room = [0u8; TABLE_MOST];
    console::with_input(
        &rt,
        b"judge: standard input could not be read to its end\n",
        &mut room,
        |table| with_schedule(&rt, table),
    );
}

// Reads the schedule file that the first argument names.
fn with_schedule(rt: &HostRuntime, table: &[u8]) {
    let mut path = [0u8; PATH_MOST];
    let k = console::argument(rt, 1, &mut path);
    match console::open(rt, &path[..k]) {
        None => {
            console::say(
                &rt.stderr(),
                b"judge: the schedule file could not be opened\n",
            );
        }
        Some(file) => from_file(rt, table, file),
    }
}

// Reads the schedule from its opened file.
fn from_file(rt: &HostRuntime, table: &[u8], mut file: File) {
    let mut schedule = [0u8; SCHEDULE_MOST];
    match console::read_whole(&mut file, &mut schedule) {
        Ok(n) => answer(rt, table, &schedule[..n]),
        Err(_) => {
            console::say(
                &rt.stderr(),
                b"judge: the schedule file could not be read to its end\n",
            );
        }
    }
}

// Prints the lines of a whole table and a whole schedule, up to the span that the second argument says.
fn answer(rt: &HostRuntime, table: &[u8], schedule: &[u8]) {
    let mut said = [0u8; SPAN_MOST];
    let k = console::argument(rt, 2, &mut said);
    let span = schedule_sheet::spans::span_said(&said[..k]);
    let output = schedule_sheet::judged(table, schedule, span);
    console::answer(
        rt,
        output.text.as_bytes(),
        b"judge: the lines could not be written whole\n",
        output.refusal,
    );
}
