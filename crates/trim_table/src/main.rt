// Reads a table from standard input and the name of a task as its argument, `T0` for the first. Prints two lines with the old and the
// new cost of that task, the greatest at which the table fits; behind them, where there is one, the table with that one cost changed.
// On a refusal its number and English line go to standard error. Where the input could not be read to its end, or what there is not
// written whole, a line on standard error says so.
#![tactic(auto)]

use layout::reader::FILE_MOST;

// One byte more than a file may have is read, so that a longer one is known as such.
const READ_MOST: usize = FILE_MOST + 1;

// The longest name of a task that is read; a longer one is no task's.
const NAME_MOST: usize = 16;

fn main(rt: HostRuntime) {
    let mut name = [0u8; NAME_MOST];
    let k = console::argument(&rt, 1, &mut name);
    let row = trim_file::names::row_named(&name[..k]);
    let mut room = [0u8; READ_MOST];
    console::with_input(
        &rt,
        b"trim: standard input could not be read to its end\n",
        &mut room,
        |file| answer(&rt, file, row),
    );
}

// Prints the lines and the new table of a whole file.
fn answer(rt: &HostRuntime, file: &[u8], row: usize) {
    let output = trim_file::trimmed(file, row);
    console::answer(
        rt,
        output.as_bytes(),
        b"trim: the lines and the table could not be written whole\n",
        output.refusal,
    );
}
