// The two other ways of charging: what a task's cost grows to, and the load of all tasks with such costs, handlers removed.
ghost use Rattle.std.specs.Prelude.{◌≡◌, ◌*◌};
ghost use Rattle.charges.specs.Inside.{way_cost, Quantized, Usable, CanCharge, CanLoad, SumsSay};
ghost use Rattle.charges.specs.Ways.{useful, load_by};
ghost use Rattle.demand.specs.Demands.{ceil};
ghost use Rattle.demand.specs.Inside.Sizes.{Small};
ghost use Rattle.demand.specs.Refusals.{FairRow};
ghost use Rattle.demand.specs.Rows.{row_of, tasks_of, handlers_of};

use crate::formula;
use demand::table::{Kind, Row};
use demand::{multiples, table};

// Whole quanta of which so many ticks are useful, or what handlers take of the task's own period.
#[derive(Clone, Copy)]
pub enum Way {
    Quantum { ticks: u64, useful: u64 },
    Task,
}

// Loads are told in millionths.
pub const MILLION: u64 = 1_000_000;

// Of all grown costs the whole periods, and the work that their rests bring over H.
#[derive(Clone, Copy)]
pub struct Sums {
    pub periods: u64,
    pub rest: u64,
}

// The useful part of a quantum: what handlers leave of it, 0 where they leave nothing.
pub fn useful(handlers: &[u32], quantum: u64) -> u64
    requires { Small (handlers_of handlers.now) quantum }
    ensures { result ≡ useful quantum (handlers_of handlers.now) }
{
    quantum.saturating_sub(formula::bounds(handlers, quantum))
}

// A cost in whole quanta.
fn in_quanta(cost: u64, ticks: u64, useful: u64) -> u64
    requires { Quantized cost ticks useful }
    ensures { result ≡ ticks * ceil cost useful }
{
    ticks * cost.div_ceil(useful)
}

// What the cost of a task grows to.
fn grown(way: Way, task: Row, handlers: &[u32]) -> u64
    requires { Usable way × FairRow (row_of task) × CanCharge (handlers_of handlers.now) }
    ensures { result ≡ way_cost way (handlers_of handlers.now) (row_of task) }
{
    match way {
        Way::Quantum { ticks, useful } => in_quanta(task.cost, ticks, useful),
        Way::Task => task.cost + formula::bounds(handlers, task.period),
    }
}

// Grown costs in whole periods and rests, so that nothing overflows: a cost may be many times its period.
fn summed(way: Way, tasks: &[u32], handlers: &[u32], h: u64) -> Sums
    requires { Usable way × Small (tasks_of tasks.now) h × CanCharge (handlers_of handlers.now) }
    ensures { SumsSay (way_cost way (handlers_of handlers.now)) h (tasks_of tasks.now) result }
{
    let own = table::width(Kind::Task);
    if tasks.len() < own {
        return Sums {
            periods: 0,
            rest: 0,
        };
    }
    let task = table::head(Kind::Task, tasks);
    // By the rest of the list, as it is defined: a fold would be stated through its closure.
    let later = summed(way, &tasks[own..], handlers, h);
    let cost = grown(way, task, handlers);
    Sums {
        periods: cost / task.period + later.periods,
        rest: cost % task.period * (h / task.period) + later.rest,
    }
}

// The load of tasks with grown costs, in millionths, rounded up.
pub fn load(way: Way, tasks: &[u32], handlers: &[u32]) -> u64
    requires { Usable way × CanLoad (tasks_of tasks.now) × CanCharge (handlers_of handlers.now) }
    ensures { result ≡ load_by (way_cost way (handlers_of handlers.now)) (tasks_of tasks.now) }
{
    let h = multiples::of_rows(Kind::Task, tasks, 1).unwrap();
    let sums = summed(way, tasks, handlers, h);
    MILLION * sums.periods + (MILLION * sums.rest).div_ceil(h)
}
