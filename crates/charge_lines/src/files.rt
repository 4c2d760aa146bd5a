// The figures of a table file.
ghost use Rattle.std.specs.Prelude.{◌≡◌};
ghost use Rattle.charge_lines.specs.Files.{FileAnswers, FileCharged};
ghost use Rattle.charges.specs.Figures.{refused_of};

use charges::figures::Figures;
use charges::{Charged, QUANTUM_MOST, figures};
use demand::refusal::Refusal;
use layout::reader;

// Those of a refusal. By its number: `refused` promises figures for each number, those of no refusal too.
pub fn refused(number: u32) -> Figures
    ensures { result ≡ refused_of number }
{
    figures::refused(number)
}

// The answer to the table that a file says. A quantum out of range is refused before the file is read.
fn answer(input: &[u8], quantum: u64) -> Result<Charged, Refusal>
    ensures { FileAnswers input.now quantum result }
{
    if (quantum == 0) | (QUANTUM_MOST < quantum) {
        return Err(Refusal::QuantumOutOfRange);
    }
    match &reader::table_in(input) {
        Ok(table) => charges::of_table(table.tasks(), table.handlers(), quantum),
        Err(refusal) => Err(*refusal),
    }
}

// From the bytes of a table file to its figures.
pub fn of_file(input: &[u8], quantum: u64) -> Figures
    ensures { FileCharged input.now quantum result }
{
    figures::of_answer(answer(input, quantum))
}
