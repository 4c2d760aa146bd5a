// The cost of one task in a lent list: where it stands, and the list with another in its place.
ghost use Rattle.std.specs.Prelude.{◌≡◌, ◌<◌, length, take};
ghost use Rattle.trim.specs.Costs.{place_of, cost_at, with_cost};
ghost use Rattle.trim.specs.Inside.{numbers_most, Placed};

use demand::table;
use demand::table::{Kind, TASK_NUMBERS};

// Where the cost of the task at row stands.
fn place_of(row: usize) -> usize
    requires { place_of row < numbers_most }
    ensures { result ≡ place_of row }
{
    table::width(Kind::Task) * row
}

// The present cost of the task at row.
pub fn present(tasks: &[u32], row: usize) -> u32
    requires { Placed tasks.now row }
    ensures { result ≡ cost_at tasks.now row }
{
    tasks[place_of(row)]
}

// The list with this cost for the task at row, and zeros behind it.
pub fn with_cost(tasks: &[u32], row: usize, cost: u32) -> [u32; TASK_NUMBERS]
    requires { Placed tasks.now row }
    ensures { take (length tasks.now) result ≡ with_cost tasks.now row cost }
{
    let mut all = [0u32; TASK_NUMBERS];
    all[..tasks.len()].copy_from_slice(tasks);
    all[place_of(row)] = cost;
    all
}
