// The order of priorities as numbers: a rank is a period and, behind it, a place.
ghost use Rattle.std.specs.Prelude.{◌≡◌, ◌<◌, ◌≤◌, min};
ghost use Rattle.demand.specs.Limits.{figure_most, tasks_most, ticks_most};
ghost use Rattle.demand.specs.Refusals.{FairRow};
ghost use Rattle.demand.specs.Rows.{rows_of, row_of, tasks_of};
ghost use Rattle.priority.specs.Inside.Ranks.{rank, work_by, work, lesser_from, next_rank, Fewer};

use demand::table::{Kind, Row, head, width};

// Above every rank.
pub const PAST_RANKS: u64 = 64 * 1_000_001;

// Less exactly where the row comes first: a shorter period, or the same and a lower place.
fn rank(j: u64, row: Row) -> u64
    requires { (j < tasks_most) × FairRow (row_of row) }
    ensures { result ≡ rank j (row_of row) }
{
    row.period * 64 + j
}

// The work that the row at place j is called for within l ticks, if its rank is below end.
fn work_by(end: u64, j: u64, l: u64, row: Row) -> u64
    requires { (j < tasks_most) × FairRow (row_of row) × (l ≤ ticks_most) }
    ensures { result ≡ work_by end j l (row_of row) }
{
    if rank(j, row) < end {
        row.cost * l.div_ceil(row.period)
    } else {
        0
    }
}

// The work that the rows of s of a rank below end are called for within l ticks; the first of them is at place j.
pub fn work(kind: Kind, s: &[u32], end: u64, j: u64, l: u64) -> u64
    requires { Fewer (rows_of kind s.now) j × (l ≤ ticks_most) }
    ensures { result ≡ work end j (rows_of kind s.now) l }
{
    let own = width(kind);
    if s.len() < own {
        return 0;
    }
    let row = head(kind, s);
    // By the rest of the list, as it is defined: a fold would be stated through its closure.
    let rest = work(kind, &s[own..], end, j + 1, l);
    work_by(end, j, l, row) + rest
}

fn lesser_from(from: u64, x: u64, y: u64) -> u64
    ensures { result ≡ lesser_from from x y }
{
    if x < from {
        return y;
    }
    x.min(y)
}

// The least rank of a task that is not below from.
pub fn next(tasks: &[u32], from: u64, j: u64) -> u64
    requires { Fewer (tasks_of tasks.now) j }
    ensures { result ≡ next_rank from j (tasks_of tasks.now) }
{
    let own = width(Kind::Task);
    if tasks.len() < own {
        return PAST_RANKS;
    }
    let row = head(Kind::Task, tasks);
    // By the rest of the list, as it is defined: a fold would be stated through its closure.
    let rest = next(&tasks[own..], from, j + 1);
    lesser_from(from, rank(j, row), rest)
}
