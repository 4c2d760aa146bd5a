// A piece judged: a stretch of ticks from a to b that all go to the row at place runner, or to nobody.
ghost use Rattle.std.specs.Prelude.{◌≡◌, ◌≤◌};
ghost use Rattle.demand.specs.Limits.{ticks_most};
ghost use Rattle.demand.specs.Rows.{tasks_of, handlers_of};
ghost use Rattle.segments.specs.Inside.{ticks_of, who_at, given_at, handler_given, tick_told, piece_broken, segment_broken, Ready};

use crate::scan::PLACES;
use crate::{look, scan};
use demand::table;
use demand::table::{Kind, TASKS_MOST};

// The first tick from a on that is not right; far where all are. Both lists and the ticks given stand alone in all of these: lists are
// lent as 01 has them, and given alone changes.
fn ticks(
    tasks: &[u32],
    handlers: &[u32],
    given: &[u64; PLACES],
    runner: usize,
    a: u64,
    far: u64,
) -> u64
    requires { Ready tasks.now handlers.now given.now runner a }
    ensures { result ≡ ticks_of far (tasks_of tasks.now) (handlers_of handlers.now) (given_at given.now)
        (handler_given given.now) a (who_at runner) }
{
    if runner < TASKS_MOST {
        let row = table::row_at(Kind::Task, tasks, runner);
        let lapse = look::lapse(row, given[runner], a, far);
        return scan::waits(handlers, given, a, far).min(lapse);
    }
    if runner < PLACES {
        let row = table::row_at(Kind::Handler, handlers, runner - TASKS_MOST);
        return look::lapse(row, given[runner], a, far);
    }
    scan::waits(handlers, given, a, far)
}

// The first tick at which the piece breaks a rule.
pub fn broken(
    tasks: &[u32],
    handlers: &[u32],
    given: &[u64; PLACES],
    runner: usize,
    a: u64,
    b: u64,
) -> Option<u64>
    requires { Ready tasks.now handlers.now given.now runner a × (b ≤ ticks_most) }
    ensures { result ≡ tick_told (piece_broken (tasks_of tasks.now) (handlers_of handlers.now) given.now runner a b) }
{
    let x = ticks(tasks, handlers, given, runner, a, b + 1);
    let y = scan::lates(tasks, given, runner, a, b + 1);
    if (x < b) | (y <= b) {
        Some(x.min(y))
    } else {
        None
    }
}

// The same of two pieces: the gap from a to a segment, and the segment, whose row stands at place.
pub fn over(
    tasks: &[u32],
    handlers: &[u32],
    given: &[u64; PLACES],
    a: u64,
    place: usize,
    from: u64,
    to: u64,
) -> Option<u64>
    requires { Ready tasks.now handlers.now given.now place a × (from ≤ ticks_most) × (to ≤ ticks_most) }
    ensures { result ≡ tick_told (segment_broken (tasks_of tasks.now) (handlers_of handlers.now) given.now
        place a from to) }
{
    match broken(tasks, handlers, given, PLACES, a, from) {
        Some(tick) => Some(tick),
        None => broken(tasks, handlers, given, place, from, to),
    }
}
