// Reads a table from standard input, and prints for each of its tasks the response by fixed priority: a header and a line a task on
// standard output, and on a refusal its number and English line on standard error. Where the input could not be read to its end, or the
// lines not written whole, a line on standard error says so.
#![tactic(auto)]

use layout::reader::FILE_MOST;

// One byte more than a file may have is read, so that a longer one is known as such.
const READ_MOST: usize = FILE_MOST + 1;

fn main(rt: HostRuntime) {
    let mut room = [0u8; READ_MOST];
    console::with_input(
        &rt,
        b"priority: standard input could not be read to its end\n",
        &mut room,
        |file| answer(&rt, file),
    );
}

// Prints the lines of a whole file.
fn answer(rt: &HostRuntime, file: &[u8]) {
    let mut page = priority_sheet::blank();
    let output = priority_sheet::sheet(file, &mut page);
    console::answer(
        rt,
        &page[..output.len],
        b"priority: the lines could not be written whole\n",
        output.refusal,
    );
}
