// Our own segments as the lines of a schedule file.
#![tactic(auto)]

ghost use Rattle.std.specs.Prelude.{◌≡◌};
ghost use Rattle.own_sheet.specs.Lines.{letter_by, segment_line};

use text::Text;

// The letter of a kind: `T` for 0, a task, else `H`.
fn letter(kind: u64) -> u8
    ensures { result ≡ letter_by kind }
{
    if kind == 0 { b'T' } else { b'H' }
}

// The line of a segment, with its CRLF. The kind is the number that stands in the list: `line` promises a line for each number, so that
// no type of two kinds takes its place.
pub fn line(kind: u64, row: u64, from: u64, to: u64) -> Text
    ensures { result ≡ segment_line kind row from to }
{
    let first = text::put(text::blank(), letter(kind));
    text::puts(text::fields(text::number(first, row), &[from, to]), b"\r\n")
}
