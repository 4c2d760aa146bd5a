// Trimming a table file: the bytes of a file and a row in, two printed lines and the bytes of the new file out.
#![tactic(auto)]

mod lines;
pub mod names;
mod write;

ghost use Rattle.std.specs.Prelude.{◌≡◌, take};
ghost use Rattle.trim_file.specs.Inside.{CanWrite, output_by};
ghost use Rattle.trim_file.specs.Whole.{FileAnswers, TrimmedSays};

use demand::refusal::Refusal;
use layout::reader;
use trim::Cut;

// The bytes of a page: enough for the two lines and a file.
pub const PAGE_MOST: usize = 4352;

// What is written: the bytes up to `lines` are printed, those behind them up to `len` are the new file; and the refusal.
#[derive(Clone, Copy)]
pub struct Output {
    pub bytes: [u8; PAGE_MOST],
    pub lines: usize,
    pub len: usize,
    pub refusal: Option<Refusal>,
}

impl Output {
    // The lines, and the file behind them.
    pub fn as_bytes(&self) -> &[u8]
        ensures { result.now ≡ take self.now.len self.now.bytes }
    {
        &self.bytes[..self.len.min(PAGE_MOST)]
    }
}

// The answer for a task of the table that a file says.
fn answer(input: &[u8], row: usize) -> Result<Cut, Refusal>
    ensures { FileAnswers input.now row result }
{
    match &reader::table_in(input) {
        Ok(table) => trim::trim(table.tasks(), table.handlers(), row),
        Err(refusal) => Err(*refusal),
    }
}

// What is written of an answer.
fn page_of(input: &[u8], row: usize, answer: Result<Cut, Refusal>) -> Output
    requires { CanWrite input.now row answer }
    ensures { result ≡ output_by input.now row answer }
{
    match answer {
        Ok(cut) => match cut.new {
            Some(new) => write::with_file(input, row, cut.old, new),
            // u64 has no From of usize.
            None => write::lines_alone(lines::of_none(row as u64, u64::from(cut.old)), None),
        },
        Err(refusal) => write::lines_alone(
            lines::of_cost(0, u64::from(refusal.number()), 0, 0),
            Some(refusal),
        ),
    }
}

// From the bytes of a table file and the row of a task to the printed lines, and to the bytes of the table with that task's cost
// lowered as far as it must be.
pub fn trimmed(input: &[u8], row: usize) -> Output
    ensures { TrimmedSays input.now row result }
{
    page_of(input, row, answer(input, row))
}
