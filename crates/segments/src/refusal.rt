// Refusals 1, 2, 3, 13, 4, 16 and 17: the first that applies, in this order.
ghost use Rattle.std.specs.Prelude.{◌≡◌};
ghost use Rattle.demand.specs.Numbered.{refused};
ghost use Rattle.demand.specs.Rows.{tasks_of, handlers_of};
ghost use Rattle.segments.specs.Promise.{unreadable, judge_refusal};
ghost use Rattle.verdict.specs.Multiples.{common};
ghost use Rattle.verdict.specs.Promise.{verdict_refusal};

use crate::segment;
use demand::refusal::Refusal;
use demand::table::Kind;
use demand::{refusal, table};
use verdict::multiples;

// The most segments.
const SEGMENTS_MOST: usize = 2048;

// 16: the list is not in fours, has too many segments, or some are not in order.
fn unreadable(tasks: &[u32], handlers: &[u32], segments: &[u64], span: u64) -> bool
    ensures { result ≡ unreadable tasks.now handlers.now segments.now span }
{
    let n = table::count(Kind::Task, tasks);
    let m = table::count(Kind::Handler, handlers);
    !segments.len().is_multiple_of(segment::WIDTH)
        | (SEGMENTS_MOST < segments.len() / segment::WIDTH)
        | segment::disordered(n, m, span, segments)
}

// The refusal where the table is readable and its H is h.
fn of_schedule(
    tasks: &[u32],
    handlers: &[u32],
    segments: &[u64],
    span: u64,
    h: u64,
) -> Result<(), Refusal>
    requires { (verdict_refusal tasks.now handlers.now ≡ 0) × (h ≡ common (tasks_of tasks.now) (handlers_of handlers.now)) }
    ensures { refused result ≡ judge_refusal tasks.now handlers.now segments.now span }
{
    if unreadable(tasks, handlers, segments, span) {
        return Err(Refusal::SegmentsUnreadable);
    }
    if (span == 0) | (h < span) {
        return Err(Refusal::SpanOutOfRange);
    }
    Ok(())
}

// The refusal of a call.
pub fn of_call(tasks: &[u32], handlers: &[u32], segments: &[u64], span: u64) -> Result<(), Refusal>
    ensures { refused result ≡ judge_refusal tasks.now handlers.now segments.now span }
{
    refusal::of_table(tasks, handlers)?;
    match multiples::of_table(tasks, handlers) {
        Some(h) => of_schedule(tasks, handlers, segments, span, h),
        None => Err(Refusal::MultipleTooLarge),
    }
}
