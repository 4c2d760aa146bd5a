// The search for the greatest cost that fits: a lower cost keeps a yes, so the middle of two costs tells which half to go on with.
ghost use Rattle.std.specs.Prelude.{◌≡◌};
ghost use Rattle.trim.specs.Costs.{with_cost};
ghost use Rattle.trim.specs.Inside.{is_fits, Judged, CanTry, CanSearch, FoundSays};

use crate::costs;
use verdict::Answer;

// The greatest cost that fits, and how many verdicts told it.
#[derive(Clone, Copy)]
pub struct Found {
    pub cost: u32,
    pub turns: u32,
}

// Is the answer a yes?
pub fn is_fits(answer: Answer) -> bool
    ensures { result ≡ is_fits answer }
{
    matches!(answer, Answer::Fits { .. })
}

// Does the table fit with this cost for the task at row?
pub fn fits_with(tasks: &[u32], handlers: &[u32], row: usize, cost: u32) -> bool
    requires { CanTry tasks.now handlers.now row cost }
    ensures { Judged (with_cost tasks.now row cost) handlers.now result }
{
    let all = costs::with_cost(tasks, row, cost);
    match verdict::verdict(&all[..tasks.len()], handlers) {
        Ok(answer) => is_fits(answer),
        Err(_) => false,
    }
}

// The greatest cost that fits, where 1 fits and the cost most does not: between low, which fits, and high, which does not, until they are
// neighbours.
pub fn greatest(tasks: &[u32], handlers: &[u32], row: usize, most: u32) -> Found
    requires { CanSearch tasks.now handlers.now row most }
    ensures { FoundSays tasks.now handlers.now row most result }
{
    let mut low: u32 = 1;
    let mut high = most;
    let mut turns: u32 = 0;
    // No `for`: the gap between the two is halved.
    while low + 1 < high {
        let middle = low + (high - low) / 2;
        if fits_with(tasks, handlers, row, middle) {
            low = middle;
        } else {
            high = middle;
        }
        turns += 1;
    }
    Found { cost: low, turns }
}
