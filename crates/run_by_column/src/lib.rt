// A fresh run of a table that is held by column. Apart from the other calls, so that who takes only the verdict has no scheduler.
#![tactic(auto)]

ghost use Rattle.columns.specs.Order.{row_order};
ghost use Rattle.demand.specs.declared.table.Kind.TheVariants.{Task, Handler};
ghost use Rattle.scheduler.specs.Promise.{FreshSays};

use scheduler::{Fresh, Run};

// A fresh run of a table held by column: the run itself holds its rows one after the other.
pub fn fresh(tasks: &[u32], handlers: &[u32]) -> Fresh
    ensures { FreshSays (row_order Task tasks.now) (row_order Handler handlers.now) result }
{
    match columns::in_row_order(tasks, handlers) {
        Some(table) => Run::fresh(table.tasks.as_slice(), table.handlers.as_slice()),
        None => Run::fresh(tasks, handlers),
    }
}
