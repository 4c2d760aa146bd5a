// The English line of a refusal number: the table's own words.
ghost use Rattle.std.specs.Prelude.{◌≡◌, ◌≤◌};
ghost use Rattle.text.specs.English.{english};

use crate::{Text, of};

// Refusals of a table, and of a question about it.
fn of_table(number: u32) -> Text
    requires { (1 ≤ number) × (number ≤ 5) }
    ensures { result ≡ english number }
{
    match number {
        1 => of(b"a task list is not in threes, or a handler list has an odd count of numbers"),
        2 => of(b"no task, over 64 tasks or over 16 handlers"),
        3 => of(b"a cost or period is 0 or above 1,000,000"),
        4 => of(b"H is above 1,000,000,000"),
        _ => of(b"an interval above 1,000,000,000 is asked about"),
    }
}

// Refusals of a run, and of a step of it.
fn of_run(number: u32) -> Text
    requires { (6 ≤ number) × (number ≤ 11) }
    ensures { result ≡ english number }
{
    match number {
        6 => of(b"the run is out of bounds"),
        7 => of(b"the run is over"),
        8 => of(b"the clock is 1,000,000,000"),
        9 => of(b"a step's list has the wrong count of numbers"),
        10 => of(b"an arrival comes before the row's next legal tick"),
        _ => of(b"an arrival brings more than the row's cost"),
    }
}

// The line of any number: the law asks for cases on the number here, with ranges and a last case.
pub fn line(number: u32) -> Text
    ensures { result ≡ english number }
{
    match number {
        1..=5 => of_table(number),
        6..=11 => of_run(number),
        12 => of(b"the file breaks the layout below"),
        13 => of(b"deadline 0 or above its period, or a handler with one"),
        14 => of(b"N out of range"),
        18 => of(b"a named task that isn't in the table"),
        _ => of(b"unknown"),
    }
}
