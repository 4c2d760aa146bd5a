// The lines of a table by fixed priority: a file in, a page of lines out.
#![tactic(auto)]

mod lines;

ghost use Rattle.std.specs.Prelude.{◌≡◌, length};
ghost use Rattle.priority_sheet.specs.Whole.{page_most, FileSheet, PageSays};

use demand::refusal::Refusal;
use demand::table;
use demand::table::{Kind, TASKS_MOST};
use layout::reader;

// The bytes of a page: enough for the lines of 64 tasks.
pub const PAGE_MOST: usize = 5120;

// What is written: so many bytes of the page, and the refusal that they tell of.
#[derive(Clone, Copy)]
pub struct Output {
    pub len: usize,
    pub refusal: Option<Refusal>,
}

// The responses of so many tasks, zeros behind.
// Fixed memory, and the promises of a page name the zeros behind: an array and its count.
#[derive(Clone, Copy)]
pub struct Responses {
    pub least: [u64; TASKS_MOST],
    pub count: usize,
}

// A page with nothing on it.
pub fn blank() -> [u8; PAGE_MOST]
    ensures { length result ≡ page_most }
{
    [0; PAGE_MOST]
}

// The responses of the table that a file says; a file that breaks the layout is refused before all.
fn answer(input: &[u8]) -> Result<Responses, Refusal>
    ensures { FileSheet input.now result }
{
    match &reader::table_in(input) {
        Ok(table) => {
            let least = priority::responses(table.tasks(), table.handlers())?;
            Ok(Responses {
                least,
                count: table::count(Kind::Task, table.tasks()),
            })
        }
        Err(refusal) => Err(*refusal),
    }
}

// From the bytes of a file to its lines, at the start of the page.
pub fn sheet(input: &[u8], page: &mut [u8; PAGE_MOST]) -> Output
    ensures { PageSays input.now page.old page.new result }
{
    lines::write(page, answer(input))
}
