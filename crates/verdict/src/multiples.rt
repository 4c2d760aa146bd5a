// H, the least common multiple of all periods, as far as the limit.
ghost use Rattle.std.specs.Prelude.{◌≡◌};
ghost use Rattle.demand.specs.Multiples.{limited};
ghost use Rattle.demand.specs.Refusals.{table_refusal};
ghost use Rattle.demand.specs.Rows.{tasks_of, handlers_of};
ghost use Rattle.verdict.specs.Multiples.{common};

use demand::multiples;
use demand::table::Kind;

// H of a table whose rows are in range, where it is within the limit.
pub fn of_table(tasks: &[u32], handlers: &[u32]) -> Option<u64>
    requires { table_refusal tasks.now handlers.now ≡ 0 }
    ensures { result ≡ limited (common (tasks_of tasks.now) (handlers_of handlers.now)) }
{
    let a = multiples::of_rows(Kind::Task, tasks, 1)?;
    multiples::of_rows(Kind::Handler, handlers, a)
}
