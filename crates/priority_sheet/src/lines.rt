// Lines laid one behind the other over the first bytes of a page.
ghost use Rattle.std.specs.Prelude.{◌≡◌, ◌+◌, ◌*◌, ◌≤◌, length};
ghost use Rattle.std.specs.Result.{result_err};
ghost use Rattle.demand.specs.Limits.{tasks_most};
ghost use Rattle.demand.specs.Numbered.{number_of};
ghost use Rattle.page.specs.Laid as over;
ghost use Rattle.priority_sheet.specs.Printed.{word_of, task_line, task_lines, refused_line, line_most, printed};
ghost use Rattle.priority_sheet.specs.Whole.{laid, Few};

use crate::{Output, PAGE_MOST, Responses};
use demand::refusal::Refusal;
use text::Text;

// The line of task i, whose response is l.
fn task_line(i: u64, l: u64) -> Text
    ensures { result ≡ task_line i l }
{
    text::puts(text::fields(text::of(word(l)), &[0, i, l]), b"\r\n")
}

// Has the task a response?
fn word(l: u64) -> &'static [u8]
    ensures { result.now ≡ word_of l }
{
    if l == 0 { b"misses" } else { b"fits" }
}

fn refused_line(refusal: Refusal) -> Text
    ensures { result ≡ refused_line (number_of refusal) }
{
    let numbers = [u64::from(refusal.number()), 0, 0];
    text::puts(text::fields(text::of(b"refused"), &numbers), b"\r\n")
}

// The lines of all tasks, from `at` on.
fn task_lines(page: &mut [u8], at: usize, responses: &Responses) -> usize
    requires { (at + tasks_most * line_most ≤ length page.old) × (responses.now.count ≤ tasks_most) }
    ensures { (result ≡ at + length (task_lines responses.now.least responses.now.count)) ×
        (page.new ≡ over.laid page.old at (task_lines responses.now.least responses.now.count)) }
{
    let mut end = at;
    // The line tells k.
    for k in 0..responses.count {
        let line = task_line(k as u64, responses.least[k]);
        end = page::lay(page, end, line.as_bytes());
    }
    end
}

// All lines of a table, from the start of the page on.
pub fn write(page: &mut [u8; PAGE_MOST], sheet: Result<Responses, Refusal>) -> Output
    requires { Few sheet }
    ensures { (page.new ≡ laid page.old 0 (printed sheet)) ×
        (result.len ≡ length (printed sheet)) × (result.refusal ≡ result_err sheet) }
{
    let at = page::lay(page, 0, b"verdict,code,task,response\r\n");
    match sheet {
        Ok(responses) => Output {
            len: task_lines(page, at, &responses),
            refusal: None,
        },
        Err(refusal) => Output {
            len: page::lay(page, at, refused_line(refusal).as_bytes()),
            refusal: Some(refusal),
        },
    }
}
