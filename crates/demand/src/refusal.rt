// Refusals, each with its number, and the first of a table or of a question about one: 1, 2, 3, 13 and 5, in this order.
ghost use Rattle.std.specs.Prelude.{◌≡◌};
ghost use Rattle.demand.specs.Numbered.{number_of, refused};
ghost use Rattle.demand.specs.Refusals.{uneven, miscounted, row_outside, deadline_outside, table_refusal, asked_refusal};
ghost use Rattle.demand.specs.Rows.{rows_of, tasks_of, handlers_of, some};

use crate::table;
use crate::table::{HANDLERS_MOST, Kind, TASKS_MOST, TICKS_MOST};

// Why a call has no answer.
#[derive(Clone, Copy, Debug, PartialEq, Eq)]
pub enum Refusal {
    // Of a table,
    Uneven = 1,
    Miscounted = 2,
    RowOutOfRange = 3,
    MultipleTooLarge = 4,
    // of a question about it,
    IntervalTooLong = 5,
    // of a run and a step of it,
    RunOutOfBounds = 6,
    RunOver = 7,
    ClockAtEnd = 8,
    ArrivalsMiscounted = 9,
    ArrivalEarly = 10,
    ArrivalHeavy = 11,
    // of a file,
    FileMalformed = 12,
    // and of later calls.
    DeadlineOutOfRange = 13,
    BurstOutOfRange = 14,
    SegmentsUnreadable = 16,
    SpanOutOfRange = 17,
    NoSuchTask = 18,
    QuantumOutOfRange = 19,
}

impl Refusal {
    // Its number, as it is printed.
    pub fn number(self) -> u32
        ensures { result ≡ number_of self }
    {
        // The discriminant is the number that 01 gives the refusal.
        self as u32
    }
}

fn uneven(kind: Kind, s: &[u32]) -> bool
    ensures { result ≡ uneven kind s.now }
{
    0 < s.len() % table::width(kind)
}

fn miscounted(tasks: &[u32], handlers: &[u32]) -> bool
    ensures { result ≡ miscounted (tasks_of tasks.now) (handlers_of handlers.now) }
{
    let t = table::count(Kind::Task, tasks);
    let h = table::count(Kind::Handler, handlers);
    (t == 0) | (TASKS_MOST < t) | (HANDLERS_MOST < h)
}

// Has some row of s a cost or period out of its range?
fn some_outside(kind: Kind, s: &[u32]) -> bool
    ensures { result ≡ some row_outside (rows_of kind s.now) }
{
    let own = table::width(kind);
    if s.len() < own {
        return false;
    }
    let row = table::head(kind, s);
    // By the rest of the list, as it is defined: a fold would be stated through its closure.
    let rest = some_outside(kind, &s[own..]);
    table::outside(row.cost) | table::outside(row.period) | rest
}

// Has some task a deadline out of its range?
fn some_deadline_outside(tasks: &[u32]) -> bool
    ensures { result ≡ some deadline_outside (tasks_of tasks.now) }
{
    let own = table::width(Kind::Task);
    if tasks.len() < own {
        return false;
    }
    let task = table::head(Kind::Task, tasks);
    // By the rest of the list, as it is defined: a fold would be stated through its closure.
    let rest = some_deadline_outside(&tasks[own..]);
    (task.deadline == 0) | (task.period < task.deadline) | rest
}

// The table's own refusal, 1, 2, 3 or 13.
pub fn of_table(tasks: &[u32], handlers: &[u32]) -> Result<(), Refusal>
    ensures { refused result ≡ table_refusal tasks.now handlers.now }
{
    if uneven(Kind::Task, tasks) | uneven(Kind::Handler, handlers) {
        return Err(Refusal::Uneven);
    }
    if miscounted(tasks, handlers) {
        return Err(Refusal::Miscounted);
    }
    if some_outside(Kind::Task, tasks) | some_outside(Kind::Handler, handlers) {
        return Err(Refusal::RowOutOfRange);
    }
    if some_deadline_outside(tasks) {
        return Err(Refusal::DeadlineOutOfRange);
    }
    Ok(())
}

// The refusal of a question about an interval of l ticks: the table's own, or 5.
pub fn of_question(tasks: &[u32], handlers: &[u32], l: u64) -> Result<(), Refusal>
    ensures { refused result ≡ asked_refusal tasks.now handlers.now l }
{
    of_table(tasks, handlers)?;
    if TICKS_MOST < l {
        Err(Refusal::IntervalTooLong)
    } else {
        Ok(())
    }
}
