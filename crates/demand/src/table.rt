// A table as it is lent: two flat lists of numbers, and their limits. The only place in the code that knows how many numbers a row has.
ghost use Rattle.std.specs.Prelude.{◌∷◌, ◌≡◌, ◌≤◌, length};
ghost use Rattle.demand.specs.Refusals.{outside};
ghost use Rattle.demand.specs.Rows.{rows_of, width, row_of, row_at, rest};

// The greatest cost or period.
pub const FIGURE_MOST: u64 = 1_000_000;

pub const TASKS_MOST: usize = 64;

pub const HANDLERS_MOST: usize = 16;

// The most numbers of either list: three a task, two a handler.
pub const TASK_NUMBERS: usize = 3 * TASKS_MOST;

pub const HANDLER_NUMBERS: usize = 2 * HANDLERS_MOST;

// The longest interval that may be asked about, the latest clock, the greatest H.
pub const TICKS_MOST: u64 = 1_000_000_000;

// Which of the two lists of a table.
#[derive(Clone, Copy)]
pub enum Kind {
    Task,
    Handler,
}

// A row: its cost, its period and its deadline, which for a handler is the period.
#[derive(Clone, Copy)]
pub struct Row {
    pub cost: u64,
    pub period: u64,
    pub deadline: u64,
}

// How many numbers a row has.
pub fn width(kind: Kind) -> usize
    ensures { result ≡ width kind }
{
    match kind {
        Kind::Task => 3,
        Kind::Handler => 2,
    }
}

// How many rows a list has.
pub fn count(kind: Kind, s: &[u32]) -> usize
    ensures { result ≡ length (rows_of kind s.now) }
{
    s.len() / width(kind)
}

// The row at the head: where its figures stand is known here alone. The last of them is the deadline.
pub fn head(kind: Kind, s: &[u32]) -> Row
    requires { width kind ≤ length s.now }
    ensures { rows_of kind s.now ≡ row_of result ∷ rows_of kind (rest kind s.now) }
{
    let last = width(kind) - 1;
    Row {
        cost: u64::from(s[0]),
        period: u64::from(s[1]),
        deadline: u64::from(s[last]),
    }
}

// The row at place i of a list, of zeros where there is none.
pub fn row_at(kind: Kind, s: &[u32], i: usize) -> Row
    ensures { row_of result ≡ row_at (rows_of kind s.now) i }
{
    if i < count(kind, s) {
        head(kind, &s[width(kind) * i..])
    } else {
        Row {
            cost: 0,
            period: 0,
            deadline: 0,
        }
    }
}

// Is a figure 0 or above its limit?
pub fn outside(x: u64) -> bool
    ensures { result ≡ outside x }
{
    (x == 0) | (FIGURE_MOST < x)
}
