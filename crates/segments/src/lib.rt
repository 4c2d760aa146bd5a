// A schedule from elsewhere, judged: the first tick at which it breaks a rule, or that it breaks none.
#![tactic(auto)]

mod look;
pub mod refusal;
mod scan;
mod segment;
mod stretch;

ghost use Rattle.std.specs.Prelude.{◌∷◌, ◌≡◌, Ok};
ghost use Rattle.segments.specs.Promise.{judge_refusal, refusal_of, word_number, numbers_of, answer_numbers, JudgeSays};

use demand::refusal::Refusal;
use scan::PLACES;

// How many numbers tell an answer.
pub const NUMBERS: usize = 3;

// The numbers of an answer: that of its word (0 accepted, 1 broken, 2 refused), then those of the printed line.
#[tactic(auto, unfolding(crate::specs::Promise::figures))]
pub fn numbers(answer: Result<Option<u64>, Refusal>) -> [u64; NUMBERS]
    ensures { result ≡ answer_numbers answer }
{
    match answer {
        Ok(None) => [0, 0, 0],
        Ok(Some(tick)) => [1, 0, tick],
        Err(refusal) => refused_numbers(refusal.number()),
    }
}

// Those of a refusal. By its number: they are promised for each number, those of no refusal too.
pub fn refused_numbers(number: u32) -> [u64; NUMBERS]
    ensures { result ≡ word_number (refusal_of number).word ∷ numbers_of (refusal_of number) }
{
    [2, u64::from(number), 0]
}

// The first tick at which the schedule of these segments breaks a rule up to the span, with all rows arriving at 0 and each period at
// full cost; none where it is accepted. Segments are lent as one list, four numbers each: kind (0 a task, 1 a handler), row
// (from 0 within its kind), from, to; the row runs in the ticks from, from + 1, .., to - 1. Nothing lent is changed. Each segment and
// each gap costs a look at each row, however long it is.
pub fn judge(
    tasks: &[u32],
    handlers: &[u32],
    segments: &[u64],
    span: u64,
) -> Result<Option<u64>, Refusal>
    ensures { JudgeSays tasks.now handlers.now segments.now span result }
{
    refusal::of_call(tasks, handlers, segments, span)?;
    Ok(judged(tasks, handlers, segments, span))
}

// The same where nothing is refused.
fn judged(tasks: &[u32], handlers: &[u32], segments: &[u64], span: u64) -> Option<u64>
    requires { judge_refusal tasks.now handlers.now segments.now span ≡ 0 }
    ensures { JudgeSays tasks.now handlers.now segments.now span (Ok result) }
{
    let mut given = [0u64; PLACES];
    let mut a: u64 = 0;
    for k in 0..segments.len() / segment::WIDTH {
        let next = segment::at(segments, segment::WIDTH * k);
        let place = segment::place(next);
        if let Some(tick) = stretch::over(tasks, handlers, &given, a, place, next.from, next.to) {
            return Some(tick);
        }
        given[place] += next.to - next.from;
        a = next.to;
    }
    stretch::broken(tasks, handlers, &given, PLACES, a, span)
}
