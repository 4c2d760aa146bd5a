// Three ways of charging handlers: the exact verdict, by whole quanta, and by task.
#![tactic(auto)]

pub mod figures;
mod formula;
mod ways;

ghost use Rattle.std.specs.Prelude.{◌≡◌, false};
ghost use Rattle.charges.specs.Inside.{Known};
ghost use Rattle.charges.specs.Promise.{quantum_outside, charge_of, shorter, by_quantum, by_task, ChargeSays};
ghost use Rattle.demand.specs.Rows.{tasks_of, some};

use demand::refusal::Refusal;
use demand::table;
use demand::table::Kind;
use verdict::Answer;
use ways::{MILLION, Way};

// What a way of charging comes to: the load fits, or it misses. Of some tables a way says nothing.
#[derive(Clone, Copy)]
pub enum Charge {
    Fits { load: u64 },
    Misses { load: u64 },
}

// The exact verdict beside the two other charges.
#[derive(Clone, Copy)]
pub struct Charged {
    pub exact: Result<Answer, Refusal>,
    pub quantum: Option<Charge>,
    pub task: Option<Charge>,
}

// The longest quantum.
pub const QUANTUM_MOST: u64 = 100_000;

// Fits or misses, by the load.
fn by_load(load: u64) -> Charge
    ensures { result ≡ charge_of load }
{
    if load <= MILLION {
        Charge::Fits { load }
    } else {
        Charge::Misses { load }
    }
}

// Has some task a deadline other than its period?
fn some_shorter(tasks: &[u32]) -> bool
    ensures { result ≡ some shorter (tasks_of tasks.now) }
{
    let own = table::width(Kind::Task);
    if tasks.len() < own {
        return false;
    }
    let task = table::head(Kind::Task, tasks);
    // By the rest of the list, as it is defined: a fold would be stated through its closure.
    let rest = some_shorter(&tasks[own..]);
    (task.deadline != task.period) | rest
}

// The charge by whole quanta, of a table of which it is known whether it is readable and plain: asked once, for both charges.
fn by_quantum(tasks: &[u32], handlers: &[u32], quantum: u64, known: bool) -> Option<Charge>
    requires { Known tasks.now handlers.now known × (quantum_outside quantum ≡ false) }
    ensures { result ≡ by_quantum quantum tasks.now handlers.now }
{
    if !known {
        return None;
    }
    let useful = ways::useful(handlers, quantum);
    if useful == 0 {
        return None;
    }
    let way = Way::Quantum {
        ticks: quantum,
        useful,
    };
    Some(by_load(ways::load(way, tasks, handlers)))
}

// The charge by task, of such a table.
fn by_task(tasks: &[u32], handlers: &[u32], known: bool) -> Option<Charge>
    requires { Known tasks.now handlers.now known }
    ensures { result ≡ by_task tasks.now handlers.now }
{
    if !known {
        return None;
    }
    Some(by_load(ways::load(Way::Task, tasks, handlers)))
}

// The exact verdict on a table, and what two other ways of charging its handlers come to, with a quantum of so many ticks.
pub fn of_table(tasks: &[u32], handlers: &[u32], quantum: u64) -> Result<Charged, Refusal>
    ensures { ChargeSays tasks.now handlers.now quantum result }
{
    if (quantum == 0) | (QUANTUM_MOST < quantum) {
        return Err(Refusal::QuantumOutOfRange);
    }
    let exact = verdict::verdict(tasks, handlers);
    let known = exact.is_ok() & !some_shorter(tasks);
    Ok(Charged {
        exact,
        quantum: by_quantum(tasks, handlers, quantum, known),
        task: by_task(tasks, handlers, known),
    })
}
