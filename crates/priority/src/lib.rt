// Fixed priorities: for each task the least length from 1 to its deadline with room for it, for those above it and for handlers.
#![tactic(auto)]

mod climb;
mod ranks;

ghost use Rattle.std.specs.Prelude.{◌≡◌, ◌≤◌};
ghost use Rattle.demand.specs.Refusals.{table_refusal};
ghost use Rattle.demand.specs.Rows.{tasks_of, handlers_of};
ghost use Rattle.priority.specs.Answers.{ResponsesSay};
ghost use Rattle.priority.specs.Responses.{leasts};

use demand::refusal;
use demand::refusal::Refusal;
use demand::table::TASKS_MOST;

// For each task the least L from 1 to its deadline with L at least A(L) plus the sum of cost times (L / period rounded up) over
// that task and those above it, 0 where there is none and past the last task.
pub fn responses(tasks: &[u32], handlers: &[u32]) -> Result<[u64; TASKS_MOST], Refusal>
    ensures { ResponsesSay tasks.now handlers.now result }
{
    refusal::of_table(tasks, handlers)?;
    Ok(climb::all(tasks, handlers))
}
