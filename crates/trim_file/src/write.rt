// What is written of a trim, one part behind the other.
ghost use Rattle.std.specs.Prelude.{[], ◌≡◌, ◌≤◌, length, take, drop};
ghost use Rattle.recost.specs.Inside.Scan.{cost_from, recosted};
ghost use Rattle.text.specs.Numbers.{decimal};
ghost use Rattle.text.specs.Text.{text_most};
ghost use Rattle.trim_file.specs.Inside.{bare_sheet, added, Replaces};
ghost use Rattle.trim_file.specs.Printed.{cost_lines};
ghost use Rattle.trim_file.specs.Whole.{output_of, page_of};

use crate::{Output, PAGE_MOST, lines};
use demand::refusal::Refusal;
use text::Text;

// A page, and how much of it is written.
#[derive(Clone, Copy)]
pub struct Sheet {
    pub bytes: [u8; PAGE_MOST],
    pub len: usize,
}

fn bare() -> Sheet
    ensures { result ≡ bare_sheet }
{
    Sheet {
        bytes: [0u8; PAGE_MOST],
        len: 0,
    }
}

// Bytes more, behind what is written.
fn add(sheet: Sheet, bytes: &[u8]) -> Sheet
    ensures { result ≡ added sheet bytes.now }
{
    let mut page = sheet.bytes;
    let len = page::lay(&mut page, sheet.len, bytes);
    Sheet { bytes: page, len }
}

// The file more, with a number in place of what stands from `at` up to `behind`.
fn replace(sheet: Sheet, input: &[u8], at: usize, behind: usize, new: u32) -> Sheet
    requires { (at ≤ behind) × (behind ≤ length input.now) }
    ensures { result ≡ added (added (added sheet (take at input.now)) (decimal new)) (drop behind input.now) }
{
    let front = add(sheet, &input[..at]);
    let number = text::number(text::blank(), u64::from(new));
    let digits = add(front, number.as_bytes());
    add(digits, &input[behind..])
}

// The lines alone.
pub fn lines_alone(text: Text, refusal: Option<Refusal>) -> Output
    requires { length text ≤ text_most }
    ensures { result ≡ page_of text [] refusal }
{
    let sheet = add(bare(), text.as_bytes());
    let bytes = sheet.bytes;
    let len = sheet.len;
    Output {
        bytes,
        lines: len,
        len,
        refusal,
    }
}

// The lines, and the file with the digits of the old cost replaced by those of the new one.
pub fn with_file(input: &[u8], row: usize, old: u32, new: u32) -> Output
    requires { Replaces input.now row old }
    ensures { result ≡ output_of (cost_lines row 0 old new)
        (recosted input.now (cost_from input.now row) old new) 0 }
{
    let at = recost::cost_from(input, row);
    let was = text::number(text::blank(), u64::from(old));
    let behind = at + was.as_bytes().len();
    // u64 has no From of usize.
    let told = lines::of_cost(row as u64, 0, u64::from(old), u64::from(new));
    let lines = add(bare(), told.as_bytes());
    let printed = lines.len;
    let sheet = replace(lines, input, at, behind, new);
    let bytes = sheet.bytes;
    Output {
        bytes,
        lines: printed,
        len: sheet.len,
        refusal: None,
    }
}
