// Tables held by column for C: all costs, then all periods, then all deadlines, as the kernel's own build keeps them.
ghost use Rattle.columns.specs.Order.{row_order};
ghost use Rattle.cowriedash.specs.ByPriority.{ResponsesTold};
ghost use Rattle.cowriedash.specs.Numbers.{VerdictTold, HandlerTold, TaskTold, MarginTold};
ghost use Rattle.cowriedash.specs.Trimmed.{TrimTold};
ghost use Rattle.demand.specs.declared.table.Kind.TheVariants.{Task, Handler};

use crate::{by_priority, demand_numbers, handler_numbers, tell};
use demand::table::TASKS_MOST;
use verdict::NUMBERS;

// The verdict on a table held by column.
#[unsafe(no_mangle)]
pub extern "C" fn cowriedash_verdict_by_column(
    tasks: &[u32],
    handlers: &[u32],
    out: &mut [u64; NUMBERS],
)
    ensures { VerdictTold (row_order Task tasks.now) (row_order Handler handlers.now) out.new }
{
    *out = verdict::numbers(by_column::verdict(tasks, handlers));
}

// Handler demand at l of a table held by column.
#[unsafe(no_mangle)]
pub extern "C" fn cowriedash_handler_demand_by_column(
    tasks: &[u32],
    handlers: &[u32],
    l: u64,
    out: &mut [u64; 3],
)
    ensures { HandlerTold (row_order Task tasks.now) (row_order Handler handlers.now) l out.new }
{
    *out = handler_numbers(by_column::handler_demand(tasks, handlers, l));
}

// Task demand at l of a table held by column.
#[unsafe(no_mangle)]
pub extern "C" fn cowriedash_task_demand_by_column(
    tasks: &[u32],
    handlers: &[u32],
    l: u64,
    out: &mut [u64; 2],
)
    ensures { TaskTold (row_order Task tasks.now) (row_order Handler handlers.now) l out.new }
{
    *out = demand_numbers(by_column::task_demand(tasks, handlers, l));
}

// The margin at l of a table held by column.
#[unsafe(no_mangle)]
pub extern "C" fn cowriedash_margin_by_column(
    tasks: &[u32],
    handlers: &[u32],
    l: u64,
    out: &mut i64,
    left: &mut u64,
) -> u32
    ensures { MarginTold (row_order Task tasks.now) (row_order Handler handlers.now) l
        result out.new left.new }
{
    tell(by_column::margin(tasks, handlers, l), out, left)
}

// The response of each task, by fixed priority, of a table held by column.
#[unsafe(no_mangle)]
pub extern "C" fn cowriedash_responses_by_column(
    tasks: &[u32],
    handlers: &[u32],
    out: &mut [u64; TASKS_MOST],
) -> u32
    ensures { ResponsesTold (row_order Task tasks.now) (row_order Handler handlers.now)
        result out.new }
{
    by_priority::tell(by_column::responses(tasks, handlers), out)
}

// The greatest cost of the task at row at which a table held by column fits.
#[unsafe(no_mangle)]
pub extern "C" fn cowriedash_trim_by_column(
    tasks: &[u32],
    handlers: &[u32],
    row: usize,
    out: &mut [u64; trim::NUMBERS],
)
    ensures { TrimTold (row_order Task tasks.now) (row_order Handler handlers.now) row out.new }
{
    *out = trim::numbers(by_column::trim(tasks, handlers, row));
}
