// The printed lines of a trim.
ghost use Rattle.std.specs.Prelude.{[], ◌≡◌, ◌++◌};
ghost use Rattle.text.specs.Numbers.{decimal, fields_of};
ghost use Rattle.text.specs.Text.{puts_of};
ghost use Rattle.trim_file.specs.Printed.{heading, cost_lines, none_lines};

use text::Text;

// The heading, and the line of a task.
fn lines(row: u64, figures: &[u64], end: &[u8]) -> Text
    ensures { result ≡ puts_of [] (heading ++ (decimal row ++ (fields_of figures.now ++ end.now))) }
{
    let task = text::number(text::of(b"task,code,old,new\r\n"), row);
    text::puts(text::fields(task, figures), end)
}

// A task, the refusal's number or 0, and its old and new cost.
pub fn of_cost(row: u64, code: u64, old: u64, new: u64) -> Text
    ensures { result ≡ cost_lines row code old new }
{
    lines(row, &[code, old, new], b"\r\n")
}

// A task that fits at no cost from 1.
pub fn of_none(row: u64, old: u64) -> Text
    ensures { result ≡ none_lines row old }
{
    lines(row, &[0, old], b",none\r\n")
}
