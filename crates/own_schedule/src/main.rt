// Reads a table from standard input; its argument is the span. Prints the segments of our own scheduler's run of that table up to the span,
// as a schedule file: every row arrives at 0 and each period at full cost, neighbouring ticks of one row are joined, gaps are idle. A
// refusal is printed as `judge` prints it, and its English line goes to standard error. Standard error also says where the run is late and
// so over before the span, where there are too many segments to print, and where something could not be read or written whole.
#![tactic(auto)]

use layout::reader;
use layout::reader::{FILE_MOST, Table};
use own_segments::Answer;

// One byte more than a table file may have is read, so that a longer one is known as such.
const TABLE_MOST: usize = FILE_MOST + 1;

// The longest span that is read whole; a longer one is no span.
const SPAN_MOST: usize = 16;

// The numbers of a segment: its kind, its row, from and to.
const SEGMENT_WIDTH: usize = 4;

// Those of as many segments as a schedule file may have.
const NUMBERS_MOST: usize = 2048 * SEGMENT_WIDTH;

fn main(rt: HostRuntime) {
    let mut said = [0u8; SPAN_MOST];
    let k = console::argument(&rt, 1, &mut said);
    let span = schedule_sheet::spans::span_said(&said[..k]);
    let mut room = [0u8; TABLE_MOST];
    console::with_input(
        &rt,
        b"segments: standard input could not be read to its end\n",
        &mut room,
        |file| answer(&rt, file, span),
    );
}

// What is refused is refused as judging a file without segments is.
fn answer(rt: &HostRuntime, file: &[u8], span: u64) {
    let output = schedule_sheet::judged(file, b"row,from,to", span);
    if output.refusal.is_none() {
        if let Ok(table) = &reader::table_in(file) {
            return of_table(rt, table, span);
        }
    }
    console::answer(
        rt,
        output.text.as_bytes(),
        b"segments: the lines could not be written whole\n",
        output.refusal,
    );
}

// The segments of a table.
fn of_table(rt: &HostRuntime, table: &Table, span: u64) {
    let mut out = [0u64; NUMBERS_MOST];
    match own_segments::of_table(table.tasks(), table.handlers(), span, &mut out) {
        Ok(Answer::Segments { count, end }) => {
            print_all(rt, &out, count);
            if end < span {
                late(rt, end);
            }
        }
        Ok(Answer::TooMany) => {
            console::say(
                &rt.stderr(),
                b"segments: there are more than 2,048 segments up to this span\n",
            );
        }
        Err(refusal) => console::explain(&rt.stderr(), refusal.number()),
    }
}

// The header, and a line for each segment.
fn print_all(rt: &HostRuntime, out: &[u64], count: usize) {
    let mut well = console::say(&rt.stdout(), b"row,from,to\r\n");
    for segment in out.chunks_exact(SEGMENT_WIDTH).take(count) {
        let line = own_sheet::line(segment[0], segment[1], segment[2], segment[3]);
        well &= console::print(&rt.stdout(), line);
    }
    if !well {
        console::say(
            &rt.stderr(),
            b"segments: the lines could not be written whole\n",
        );
    }
}

// A run that is late is over: no segment comes behind that clock.
fn late(rt: &HostRuntime, clock: u64) {
    console::say(&rt.stderr(), b"segments: a task is late at clock ");
    console::say_number(&rt.stderr(), clock);
    console::say(&rt.stderr(), b", where the run is over\n");
}
