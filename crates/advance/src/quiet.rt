// A step without arrivals.
ghost use Rattle.std.specs.Prelude.{◌≡◌, ◌+◌, ◌≤◌};
ghost use Rattle.advance.specs.Stretch.{quietly};
ghost use Rattle.demand.specs.Limits.{tasks_most, handlers_most};
ghost use Rattle.scheduler.specs.Runs.{row_places};
ghost use Rattle.scheduler.specs.Start.{zeros};

use scheduler::sizes::PLACES;
use scheduler::{Run, Stepped};

fn zeros() -> [u32; PLACES]
    ensures { result ≡ zeros row_places }
{
    [0u32; PLACES]
}

// How many rows a run has. One that has more than there are places for is out of bounds, whatever arrives.
fn rows(n: usize, m: usize) -> usize
    ensures { (result ≤ row_places) × (n ≤ tasks_most → m ≤ handlers_most → result ≡ n + m) }
{
    if Run::TASKS_MOST < n {
        return 0;
    }
    if Run::HANDLERS_MOST < m {
        return 0;
    }
    n + m
}

// One tick with 0 for every row.
pub fn step(run: Run) -> Stepped
    ensures { result ≡ quietly run }
{
    let none = zeros();
    let count = rows(run.task_count, run.handler_count);
    run.step(&none[..count])
}
