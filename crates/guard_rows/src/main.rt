// Reads guards from standard input, and prints the handler rows of each: the heading of a table and two rows a guard on standard output,
// or on a refusal two lines there, and its number and English line on standard error. Where the input could not be read to its end, or the
// lines not written whole, a line on standard error says so.
#![tactic(auto)]

use guard_file::FILE_MOST;

// One byte more than a file may have is read, so that a longer one is known as such.
const READ_MOST: usize = FILE_MOST + 1;

fn main(rt: HostRuntime) {
    let mut room = [0u8; READ_MOST];
    console::with_input(
        &rt,
        b"guards: standard input could not be read to its end\n",
        &mut room,
        |file| answer(&rt, file),
    );
}

// Prints the lines of a whole file.
fn answer(rt: &HostRuntime, file: &[u8]) {
    let mut page = guard_file::blank();
    let output = guard_file::answer(file, &mut page);
    console::answer(
        rt,
        &page[..output.len],
        b"guards: the lines could not be written whole\n",
        output.refusal,
    );
}
