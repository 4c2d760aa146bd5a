// The verdict on a table: does every interval have room, and if not, which is the shortest that fails.
#![tactic(auto)]

mod drain;
mod load;
pub mod multiples;
mod search;

ghost use Rattle.std.specs.Prelude.{◌∷◌, ◌≡◌, Ok};
ghost use Rattle.verdict.specs.Multiples.{common};
ghost use Rattle.verdict.specs.Promise.{verdict_refusal, refusal_of, word_number, numbers_of, answer_numbers, VerdictSays};
ghost use Rattle.demand.specs.Rows.{tasks_of, handlers_of};

use demand::refusal;
use demand::refusal::Refusal;
use demand::table::Kind;
use search::Found;

// The shortest interval that fails, with both demands there, the work that handlers leave over and how many lengths were tested.
#[derive(Clone, Copy)]
pub struct Miss {
    pub interval: u64,
    pub handler: u64,
    pub task: u64,
    pub left: u64,
    pub tested: u64,
}

// Fits, with how many lengths were tested; or misses at the shortest interval that fails.
#[derive(Clone, Copy)]
pub enum Answer {
    Fits { load: u64, tested: u64 },
    Misses { miss: Miss, load: u64 },
}

// How many numbers tell an answer.
pub const NUMBERS: usize = 8;

// The numbers of an answer: that of its word (0 fits, 1 misses, 2 refused), then those of the printed line.
#[tactic(auto, unfolding(crate::specs::Promise::figures))]
pub fn numbers(answer: Result<Answer, Refusal>) -> [u64; NUMBERS]
    ensures { result ≡ answer_numbers answer }
{
    match answer {
        Ok(Answer::Fits { load, tested }) => [0, 0, 0, 0, 0, load, 0, tested],
        Ok(Answer::Misses { miss, load }) => [
            1,
            0,
            miss.interval,
            miss.handler,
            miss.task,
            load,
            miss.left,
            miss.tested,
        ],
        Err(refusal) => refused_numbers(refusal.number()),
    }
}

// Those of a refusal. By its number: they are promised for each number, those of no refusal too.
pub fn refused_numbers(number: u32) -> [u64; NUMBERS]
    ensures { result ≡ word_number (refusal_of number).word ∷ numbers_of (refusal_of number) }
{
    [2, u64::from(number), 0, 0, 0, 0, 0, 0]
}

// The verdict: Fits exactly when every interval length from 1 up passes, with no upper end.
pub fn verdict(tasks: &[u32], handlers: &[u32]) -> Result<Answer, Refusal>
    ensures { VerdictSays tasks.now handlers.now result }
{
    refusal::of_table(tasks, handlers)?;
    match multiples::of_table(tasks, handlers) {
        Some(h) => Ok(judged(tasks, handlers, h)),
        None => Err(Refusal::MultipleTooLarge),
    }
}

// The verdict on a readable table, whose H is h.
fn judged(tasks: &[u32], handlers: &[u32], h: u64) -> Answer
    requires { (verdict_refusal tasks.now handlers.now ≡ 0) × (h ≡ common (tasks_of tasks.now) (handlers_of handlers.now)) }
    ensures { VerdictSays tasks.now handlers.now (Ok result) }
{
    let w = load::work(Kind::Task, tasks, h) + load::work(Kind::Handler, handlers, h);
    let load = load::of_work(w, h);
    let bound = load::costs(handlers) * h + load::slack(tasks, h);
    let end = search::end_of(h, w, bound);
    match search::first_failing(tasks, handlers, end, w < h) {
        Found::At { miss } => Answer::Misses { miss, load },
        Found::Nothing { tested } => Answer::Fits { load, tested },
    }
}
