// A and D over the rows of a lent list, each handing the list behind its first row on to itself.
ghost use Rattle.std.specs.Prelude.{◌≡◌, ◌<◌, ◌≤◌};
ghost use Rattle.demand.specs.Demands.{called, within, due};
ghost use Rattle.demand.specs.Limits.{ticks_most};
ghost use Rattle.demand.specs.Rows.{rows_of, tasks_of};
ghost use Rattle.demand.specs.Inside.Sizes.{Small};

use crate::table::{Kind, head, width};

// How many jobs have their deadline within l ticks, the first of them arriving at once.
fn jobs(l: u64, deadline: u64, period: u64) -> u64
    requires { (l ≤ ticks_most) × (0 < period) }
    ensures { result ≡ within l deadline period }
{
    if l < deadline {
        0
    } else {
        (l - deadline) / period + 1
    }
}

// D: the work of tasks that is due within l ticks.
pub fn due(tasks: &[u32], l: u64) -> u64
    requires { Small (tasks_of tasks.now) l }
    ensures { result ≡ due (tasks_of tasks.now) l }
{
    let own = width(Kind::Task);
    if tasks.len() < own {
        return 0;
    }
    let task = head(Kind::Task, tasks);
    // By the rest of the list, as it is defined: a fold would be stated through its closure.
    let rest = due(&tasks[own..], l);
    task.cost * jobs(l, task.deadline, task.period) + rest
}

// A of either kind: the work that the rows of s are called for within l ticks.
pub fn called(kind: Kind, s: &[u32], l: u64) -> u64
    requires { Small (rows_of kind s.now) l }
    ensures { result ≡ called (rows_of kind s.now) l }
{
    let own = width(kind);
    if s.len() < own {
        return 0;
    }
    let row = head(kind, s);
    // By the rest of the list, as it is defined: a fold would be stated through its closure.
    let rest = called(kind, &s[own..], l);
    row.cost * l.div_ceil(row.period) + rest
}
