// Tables held by column: all costs, then all periods, then all deadlines. Put into row order once, here and nowhere else.
#![tactic(auto)]

ghost use Rattle.std.specs.Prelude.{false, ◌≡◌, ◌+◌, ◌*◌, ◌≤◌, ◌<◌, length, take};
ghost use Rattle.columns.specs.Held.{most_numbers, unheld, table_held};
ghost use Rattle.columns.specs.Order.{first_rows, row_order};

use demand::flat::Flat;
use demand::table;
use demand::table::{HANDLER_NUMBERS, Kind, TASK_NUMBERS};

// A table in row order.
#[derive(Clone, Copy)]
pub struct Table {
    pub tasks: Flat<TASK_NUMBERS>,
    pub handlers: Flat<HANDLER_NUMBERS>,
}

// The most numbers of a list that a table may have.
fn most(kind: Kind) -> usize
    ensures { result ≡ most_numbers kind }
{
    match kind {
        Kind::Task => TASK_NUMBERS,
        Kind::Handler => HANDLER_NUMBERS,
    }
}

// Is a list refused by its count alone: too long for a table, or not in whole rows?
fn unheld(kind: Kind, numbers: &[u32]) -> bool
    ensures { result ≡ unheld kind numbers.now }
{
    (most(kind) < numbers.len()) | !numbers.len().is_multiple_of(table::width(kind))
}

// The numbers of a row, which by column stand n places apart, put beside one another behind the rows before it.
fn put_row(out: &mut [u32], numbers: &[u32], w: usize, n: usize, row: usize)
    requires { (length numbers.now ≡ w * n) × (w * n ≤ length out.old)
        × (row < n) × (take (row * w) out.old ≡ first_rows w n numbers.now row) }
    ensures { (length out.new ≡ length out.old) × (take ((row + 1) * w) out.new ≡ first_rows w n numbers.now (row + 1)) }
{
    for column in 0..w {
        out[row * w + column] = numbers[column * n + row];
    }
}

// A list that is held by column, in row order.
fn in_rows<const N: usize>(kind: Kind, numbers: &[u32]) -> Flat<N>
    requires { (unheld kind numbers.now ≡ false) × (most_numbers kind ≤ N) }
    ensures { result ≡ row_order kind numbers.now }
{
    let w = table::width(kind);
    let n = numbers.len() / w;
    let mut out = [0; N];
    for row in 0..n {
        put_row(&mut out, numbers, w, n, row);
    }
    Flat::of(&out[..numbers.len()])
}

// The table of two lists held by column, in row order: at most 192 and 32 numbers are copied. None where its counts alone refuse it.
pub fn in_row_order(tasks: &[u32], handlers: &[u32]) -> Option<Table>
    ensures { result ≡ table_held tasks.now handlers.now }
{
    if unheld(Kind::Task, tasks) | unheld(Kind::Handler, handlers) {
        return None;
    }
    Some(Table {
        tasks: in_rows(Kind::Task, tasks),
        handlers: in_rows(Kind::Handler, handlers),
    })
}
