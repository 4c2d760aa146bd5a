// W, E, what short deadlines add, and the load.
ghost use Rattle.std.specs.Prelude.{◌≡◌, ◌*◌, ◌<◌, ◌≤◌};
ghost use Rattle.demand.specs.Limits.{ticks_most};
ghost use Rattle.demand.specs.Rows.{rows_of, tasks_of, handlers_of, Valid};
ghost use Rattle.demand.specs.Inside.Sizes.{Small};
ghost use Rattle.verdict.specs.Loads.{work, costs, slack, millionths, work_most};

use demand::table;
use demand::table::Kind;

// The work that the rows of s bring in h ticks, for whole periods.
pub fn work(kind: Kind, s: &[u32], h: u64) -> u64
    requires { Small (rows_of kind s.now) h }
    ensures { result ≡ work h (rows_of kind s.now) }
{
    let own = table::width(kind);
    if s.len() < own {
        return 0;
    }
    let row = table::head(kind, s);
    // By the rest of the list, as it is defined: a fold would be stated through its closure.
    let rest = work(kind, &s[own..], h);
    row.cost * (h / row.period) + rest
}

// The sum of handler costs.
pub fn costs(handlers: &[u32]) -> u64
    requires { Small (handlers_of handlers.now) 0 }
    ensures { result ≡ costs (handlers_of handlers.now) }
{
    let own = table::width(Kind::Handler);
    if handlers.len() < own {
        return 0;
    }
    let handler = table::head(Kind::Handler, handlers);
    // By the rest of the list, as it is defined: a fold would be stated through its closure.
    let rest = costs(&handlers[own..]);
    handler.cost + rest
}

// What short deadlines add in h ticks.
pub fn slack(tasks: &[u32], h: u64) -> u64
    requires { Small (tasks_of tasks.now) h × Valid (tasks_of tasks.now) }
    ensures { result ≡ slack h (tasks_of tasks.now) }
{
    let own = table::width(Kind::Task);
    if tasks.len() < own {
        return 0;
    }
    let task = table::head(Kind::Task, tasks);
    // By the rest of the list, as it is defined: a fold would be stated through its closure.
    let rest = slack(&tasks[own..], h);
    task.cost * (h / task.period) * (task.period - task.deadline) + rest
}

// Loads are told in millionths.
const MILLION: u64 = 1_000_000;

// 1,000,000 times w / h, rounded up: the whole part and the rest apart, so that nothing overflows.
pub fn of_work(w: u64, h: u64) -> u64
    requires { (w ≤ work_most * h) × (0 < h) × (h ≤ ticks_most) }
    ensures { result ≡ millionths w h }
{
    let q = w / h;
    let r = w % h;
    MILLION * q + (MILLION * r).div_ceil(h)
}
