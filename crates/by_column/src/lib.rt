// The calls on a table for one that is held by column: all costs, then all periods, then all deadlines. Each puts the table into row order
// once and asks the call for rows; a table that its counts refuse is handed on as it is, and not copied.
#![tactic(auto)]

ghost use Rattle.columns.specs.Order.{row_order};
ghost use Rattle.demand.specs.Answers.{DemandSays, HandlerSays, MarginSays};
ghost use Rattle.demand.specs.Demands.{due};
ghost use Rattle.demand.specs.Refusals.{asked_refusal};
ghost use Rattle.demand.specs.Rows.{tasks_of, handlers_of};
ghost use Rattle.demand.specs.declared.table.Kind.TheVariants.{Task, Handler};
ghost use Rattle.priority.specs.Answers.{ResponsesSay};
ghost use Rattle.trim.specs.Promise.{TrimSays};
ghost use Rattle.verdict.specs.Promise.{VerdictSays};

use demand::refusal::Refusal;
use demand::table::TASKS_MOST;
use demand::{Share, Spare};
use trim::Cut;
use verdict::Answer;

// Handler demand at l of a table held by column, with what is left over.
pub fn handler_demand(tasks: &[u32], handlers: &[u32], l: u64) -> Result<Share, Refusal>
    ensures { HandlerSays (asked_refusal (row_order Task tasks.now) (row_order Handler handlers.now) l)
        (handlers_of (row_order Handler handlers.now)) l result }
{
    match columns::in_row_order(tasks, handlers) {
        Some(table) => demand::handler_demand(table.tasks.as_slice(), table.handlers.as_slice(), l),
        None => demand::handler_demand(tasks, handlers, l),
    }
}

// Task demand at l of a table held by column.
pub fn task_demand(tasks: &[u32], handlers: &[u32], l: u64) -> Result<u64, Refusal>
    ensures { DemandSays (asked_refusal (row_order Task tasks.now) (row_order Handler handlers.now) l)
        (due (tasks_of (row_order Task tasks.now)) l) result }
{
    match columns::in_row_order(tasks, handlers) {
        Some(table) => demand::task_demand(table.tasks.as_slice(), table.handlers.as_slice(), l),
        None => demand::task_demand(tasks, handlers, l),
    }
}

// The margin at l of a table held by column, with what is left over.
pub fn margin(tasks: &[u32], handlers: &[u32], l: u64) -> Result<Spare, Refusal>
    ensures { MarginSays (asked_refusal (row_order Task tasks.now) (row_order Handler handlers.now) l)
        (tasks_of (row_order Task tasks.now)) (handlers_of (row_order Handler handlers.now)) l result }
{
    match columns::in_row_order(tasks, handlers) {
        Some(table) => demand::margin(table.tasks.as_slice(), table.handlers.as_slice(), l),
        None => demand::margin(tasks, handlers, l),
    }
}

// The verdict on a table held by column.
pub fn verdict(tasks: &[u32], handlers: &[u32]) -> Result<Answer, Refusal>
    ensures { VerdictSays (row_order Task tasks.now) (row_order Handler handlers.now) result }
{
    match columns::in_row_order(tasks, handlers) {
        Some(table) => verdict::verdict(table.tasks.as_slice(), table.handlers.as_slice()),
        None => verdict::verdict(tasks, handlers),
    }
}

// The response of each task of a table held by column.
pub fn responses(tasks: &[u32], handlers: &[u32]) -> Result<[u64; TASKS_MOST], Refusal>
    ensures { ResponsesSay (row_order Task tasks.now) (row_order Handler handlers.now) result }
{
    match columns::in_row_order(tasks, handlers) {
        Some(table) => priority::responses(table.tasks.as_slice(), table.handlers.as_slice()),
        None => priority::responses(tasks, handlers),
    }
}

// The greatest cost of the task at row at which a table held by column fits.
pub fn trim(tasks: &[u32], handlers: &[u32], row: usize) -> Result<Cut, Refusal>
    ensures { TrimSays (row_order Task tasks.now) (row_order Handler handlers.now) row result }
{
    match columns::in_row_order(tasks, handlers) {
        Some(table) => trim::trim(table.tasks.as_slice(), table.handlers.as_slice(), row),
        None => trim::trim(tasks, handlers, row),
    }
}
