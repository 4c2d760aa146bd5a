// Lines laid one behind the other over the first bytes of a page.
ghost use Rattle.std.specs.Prelude.{◌++◌, ◌≡◌, ◌+◌, ◌*◌, ◌≤◌, length, Ok, Some};
ghost use Rattle.demand.specs.Numbered.{number_of};
ghost use Rattle.guard_file.specs.Inside.Building.{guards_held};
ghost use Rattle.guard_file.specs.Inside.Pages.{guard_lines_by, guard_most, lines_up_to, Written};
ghost use Rattle.guard_file.specs.Page.{laid, rows_heading, refused_text};
ghost use Rattle.page.specs.Laid as over;

use crate::reader::{GUARDS_MOST, NUMBERS, Sheet};
use crate::{Output, PAGE_MOST};
use demand::refusal::Refusal;
use text::Text;

// The two handler rows of a guard.
fn guard_lines(interrupt: u64, timer: u64, period: u64) -> Text
    ensures { result ≡ guard_lines_by interrupt timer period }
{
    let first = [interrupt, period];
    let second = [timer, period];
    let both = text::puts(text::fields(text::of(b"handler"), &first), b",\r\nhandler");
    text::puts(text::fields(both, &second), b",\r\n")
}

// The lines of a refusal, of the guard at this place.
fn refused(refusal: Refusal, place: usize) -> Text
    ensures { result ≡ refused_text (number_of refusal) place }
{
    // u64 has no From of usize.
    let numbers = [u64::from(refusal.number()), place as u64];
    text::puts(
        text::fields(text::of(b"guards,code,guard\r\nrefused"), &numbers),
        b"\r\n",
    )
}

// The lines of the first n guards, behind the heading.
fn all_lines(page: &mut [u8], at: usize, numbers: &[u64; NUMBERS], n: usize) -> usize
    requires { (at + guards_held * guard_most ≤ length page.old) × (n ≤ guards_held) }
    ensures { (result ≡ at + length (lines_up_to numbers.now n)) × (page.new ≡ over.laid page.old at (lines_up_to numbers.now n)) }
{
    let mut end = at;
    for k in 0..n {
        let lines = guard_lines(numbers[3 * k], numbers[3 * k + 1], numbers[3 * k + 2]);
        end = page::lay(page, end, lines.as_bytes());
    }
    end
}

// The rows of n guards, from the start of the page on.
fn rows(page: &mut [u8; PAGE_MOST], numbers: &[u64; NUMBERS], n: usize) -> usize
    requires { n ≤ guards_held }
    ensures { (result ≡ length (rows_heading ++ lines_up_to numbers.now n)) ×
        (page.new ≡ laid page.old 0 (rows_heading ++ lines_up_to numbers.now n)) }
{
    let at = page::lay(page, 0, b"kind,cost,period,deadline\r\n");
    all_lines(page, at, numbers, n)
}

// A refusal, from the start of the page on.
fn refuse(page: &mut [u8; PAGE_MOST], refusal: Refusal, place: usize) -> Output
    ensures { (page.new ≡ laid page.old 0 (refused_text (number_of refusal) place)) ×
        (result.len ≡ length (refused_text (number_of refusal) place)) × (result.refusal ≡ Some refusal) }
{
    Output {
        len: page::lay(page, 0, refused(refusal, place).as_bytes()),
        refusal: Some(refusal),
    }
}

// The lines of guards that were read: 2, then the first refusal of a guard, else the rows.
fn of_sheet(page: &mut [u8; PAGE_MOST], sheet: Sheet) -> Output
    ensures { Written (Ok sheet) page.old page.new result }
{
    if GUARDS_MOST < sheet.count {
        return refuse(page, Refusal::Miscounted, 0);
    }
    match sheet.first {
        Some(first) => refuse(page, first.refusal, first.place),
        None => Output {
            len: rows(page, &sheet.numbers, sheet.count),
            refusal: None,
        },
    }
}

// The lines of what was read; 12 comes before all.
pub fn write(page: &mut [u8; PAGE_MOST], read: Result<Sheet, Refusal>) -> Output
    ensures { Written read page.old page.new result }
{
    match read {
        Ok(sheet) => of_sheet(page, sheet),
        Err(refusal) => refuse(page, refusal, 0),
    }
}
