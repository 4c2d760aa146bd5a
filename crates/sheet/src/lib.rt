// The sheet of a file: a table in, two printed lines out.
#![tactic(auto)]

pub mod lines;

ghost use Rattle.sheet.specs.Whole.{FileFigures, SheetSays};
ghost use Rattle.verdict.specs.Promise.{figures};

use demand::refusal::Refusal;
use layout::reader;
use text::Text;
use verdict::Answer;

// What is written: the two lines, and the refusal that they tell of.
#[derive(Clone, Copy)]
pub struct Output {
    pub text: Text,
    pub refusal: Option<Refusal>,
}

// From the bytes of a file to the bytes of its sheet.
pub fn sheet(input: &[u8]) -> Output
    ensures { SheetSays input.now result }
{
    let answer = answer(input);
    Output {
        text: lines::of_answer(answer),
        refusal: answer.err(),
    }
}

// The verdict on the table that a file says; a file that breaks the layout is refused before all.
fn answer(input: &[u8]) -> Result<Answer, Refusal>
    ensures { FileFigures input.now (figures result) }
{
    match &reader::table_in(input) {
        Ok(table) => verdict::verdict(table.tasks(), table.handlers()),
        Err(refusal) => Err(*refusal),
    }
}
