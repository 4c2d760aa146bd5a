// A schedule file judged: a table file, a schedule file and a span in, two printed lines out.
#![tactic(auto)]

mod lines;
pub mod spans;

ghost use Rattle.schedule_sheet.specs.Whole.{FileFigures, ScheduleFigures, JudgedSays};
ghost use Rattle.segments.specs.Promise.{figures};

use demand::refusal::Refusal;
use text::Text;

// What is written: the two lines, and the refusal that they tell of.
#[derive(Clone, Copy)]
pub struct Output {
    pub text: Text,
    pub refusal: Option<Refusal>,
}

// The answer to a schedule file; one that breaks the layout is handed on as a list that is not in fours.
fn of_schedule(
    tasks: &[u32],
    handlers: &[u32],
    schedule: &[u8],
    span: u64,
) -> Result<Option<u64>, Refusal>
    ensures { ScheduleFigures tasks.now handlers.now schedule.now span (figures result) }
{
    match &schedule_file::reader::read(schedule) {
        Ok(schedule) => segments::judge(tasks, handlers, schedule.numbers(), span),
        Err(_) => segments::judge(tasks, handlers, &[0], span),
    }
}

// The answer to a table and a schedule file; a table file that breaks its layout is refused before all.
fn answer(table: &[u8], schedule: &[u8], span: u64) -> Result<Option<u64>, Refusal>
    ensures { FileFigures table.now schedule.now span (figures result) }
{
    match &layout::reader::table_in(table) {
        Ok(table) => of_schedule(table.tasks(), table.handlers(), schedule, span),
        Err(refusal) => Err(*refusal),
    }
}

// From the bytes of a table file, those of a schedule file and a span to the printed lines.
pub fn judged(table: &[u8], schedule: &[u8], span: u64) -> Output
    ensures { JudgedSays table.now schedule.now span result }
{
    let answer = answer(table, schedule, span);
    Output {
        text: lines::of_answer(answer),
        refusal: answer.err(),
    }
}
