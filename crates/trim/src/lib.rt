// The greatest cost of one task at which a table fits, all else kept.
#![tactic(auto)]

mod costs;
mod search;

ghost use Rattle.std.specs.Prelude.{◌≡◌};
ghost use Rattle.trim.specs.Inside.{Judged};
ghost use Rattle.trim.specs.Promise.{refusal_of, numbers_of, answer_numbers, TrimSays};

use demand::refusal::Refusal;
use demand::table;
use demand::table::Kind;

// The present cost of a task, and the greatest from 1 up to it at which the table fits, where one does.
#[derive(Clone, Copy)]
pub struct Cut {
    pub old: u32,
    pub new: Option<u32>,
}

// How many numbers tell an answer.
pub const NUMBERS: usize = 3;

// The numbers of an answer: the refusal's number or 0, the present cost, then the new one, which is 0 where there is none.
#[tactic(auto, unfolding(crate::specs::Promise::figures))]
pub fn numbers(answer: Result<Cut, Refusal>) -> [u64; NUMBERS]
    ensures { result ≡ answer_numbers answer }
{
    match answer {
        Ok(
            Cut {
                old,
                new: Some(new),
            },
        ) => [0, u64::from(old), u64::from(new)],
        Ok(Cut { old, new: None }) => [0, u64::from(old), 0],
        Err(refusal) => refused_numbers(refusal.number()),
    }
}

// Those of a refusal. By its number: they are promised for each number, those of no refusal too.
pub fn refused_numbers(number: u32) -> [u64; NUMBERS]
    ensures { result ≡ numbers_of (refusal_of number) }
{
    [u64::from(number), 0, 0]
}

// The greatest cost of the task at row, from 1 up to its present one, at which the table fits, all else kept. Nothing lent is changed. At
// most 22 verdicts are asked for: one on the table as it is, one with cost 1, and one for each of at most 20 halvings.
pub fn trim(tasks: &[u32], handlers: &[u32], row: usize) -> Result<Cut, Refusal>
    ensures { TrimSays tasks.now handlers.now row result }
{
    let sheet = verdict::verdict(tasks, handlers)?;
    of_readable(tasks, handlers, row, search::is_fits(sheet))
}

// The same of a readable table, of which it is known whether it fits.
// The flag is what the verdict said: asked once, and not again for the greatest cost.
fn of_readable(tasks: &[u32], handlers: &[u32], row: usize, fits: bool) -> Result<Cut, Refusal>
    requires { Judged tasks.now handlers.now fits }
    ensures { TrimSays tasks.now handlers.now row result }
{
    if table::count(Kind::Task, tasks) <= row {
        return Err(Refusal::NoSuchTask);
    }
    let old = costs::present(tasks, row);
    if fits {
        return Ok(Cut {
            old,
            new: Some(old),
        });
    }
    if !search::fits_with(tasks, handlers, row, 1) {
        return Ok(Cut { old, new: None });
    }
    let found = search::greatest(tasks, handlers, row, old);
    Ok(Cut {
        old,
        new: Some(found.cost),
    })
}
