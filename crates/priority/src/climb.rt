// The climb from below: where a length has no room for what is asked of it, the next one that may is what is asked.
ghost use Rattle.std.specs.Prelude.{◌≡◌, ◌<◌, ◌≤◌, ltb, length};
ghost use Rattle.demand.specs.Limits.{figure_most, tasks_most};
ghost use Rattle.demand.specs.Refusals.{table_refusal, InRange};
ghost use Rattle.demand.specs.Rows.{tasks_of, handlers_of, row_at};
ghost use Rattle.demand.specs.Tests.{pick};
ghost use Rattle.priority.specs.Inside.Climb.{Climbed};
ghost use Rattle.priority.specs.Inside.Ranks.{claimed};
ghost use Rattle.priority.specs.Responses.{leasts};

use crate::ranks;
use crate::ranks::PAST_RANKS;
use demand::table;
use demand::table::{Kind, TASKS_MOST};

// A(l), and the work that tasks of a rank below end are called for within l ticks.
fn claimed(tasks: &[u32], handlers: &[u32], end: u64, l: u64) -> u64
    requires { InRange (tasks_of tasks.now) (handlers_of handlers.now) × (l ≤ figure_most) }
    ensures { result ≡ claimed (tasks_of tasks.now) (handlers_of handlers.now) end l }
{
    ranks::work(Kind::Handler, handlers, PAST_RANKS, 0, l)
        + ranks::work(Kind::Task, tasks, end, 0, l)
}

// The least length from l on with room for the tasks of a rank below end, or one above the deadline below which none has room.
fn up(tasks: &[u32], handlers: &[u32], end: u64, l: u64, deadline: u64) -> u64
    requires { InRange (tasks_of tasks.now) (handlers_of handlers.now) × (deadline ≤ figure_most) }
    ensures { Climbed (claimed (tasks_of tasks.now) (handlers_of handlers.now) end) l deadline result }
{
    let mut at = l;
    // No `for`: each length is what the one before it lacks room for.
    while at <= deadline {
        let work = claimed(tasks, handlers, end, at);
        if work <= at {
            return at;
        }
        at = work;
    }
    at
}

// l, or 0 where it is above the deadline: the paper's figure for a task without a response.
fn within(l: u64, deadline: u64) -> u64
    ensures { result ≡ pick (ltb deadline l) 0 l }
{
    // 0 and no Option: 01 prints 0 and hands C the same list.
    if deadline < l { 0 } else { l }
}

// The response of each task, the highest first: no length that was too short for one has room for those below it.
pub fn all(tasks: &[u32], handlers: &[u32]) -> [u64; TASKS_MOST]
    requires { table_refusal tasks.now handlers.now ≡ 0 }
    ensures { result ≡ leasts (tasks_of tasks.now) (handlers_of handlers.now) }
{
    let mut least = [0u64; TASKS_MOST];
    let mut l = 1;
    let mut rank = ranks::next(tasks, 0, 0);
    // No `for`: the next rank is looked for among the tasks.
    while rank < PAST_RANKS {
        // A rank is one number, since ranks are told apart and put in order by it alone; what is left by 64 is a place, so that no cast cuts.
        let place = (rank % 64) as usize;
        let deadline = table::row_at(Kind::Task, tasks, place).deadline;
        l = up(tasks, handlers, rank + 1, l, deadline);
        least[place] = within(l, deadline);
        rank = ranks::next(tasks, rank + 1, 0);
    }
    least
}
