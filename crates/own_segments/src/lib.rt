// Our own scheduler's segments: who runs when, of a table whose rows all arrive at 0 and each period at full cost.
#![tactic(auto)]

mod arrivals;
mod pen;
mod turn;

ghost use Rattle.own_segments.specs.Inside.{Started, DrawnTo};
ghost use Rattle.own_segments.specs.Promise.{OwnSays};

use crate::pen::Pen;
use demand::refusal::Refusal;
use scheduler::{Ran, Run};
use segments::refusal;

// How many segments, and the clock at which the run is over, or the span; or that there are more than there is room for.
#[derive(Clone, Copy, Debug, PartialEq, Eq)]
pub enum Answer {
    Segments { count: usize, end: u64 },
    TooMany,
}

// How many there are, and the clock to which the run came.
#[derive(Clone, Copy, Debug, PartialEq, Eq)]
pub struct Drawn {
    pub count: usize,
    pub end: u64,
}

// The segments of our scheduler's synchronous run over the ticks before the span, neighbouring ticks of one row joined, gaps idle: four
// numbers each, kind (0 a task, 1 a handler), row, from, to, and zeros behind them; at most 2,048, and no more than the list has room for.
pub fn of_table(
    tasks: &[u32],
    handlers: &[u32],
    span: u64,
    out: &mut [u64],
) -> Result<Answer, Refusal>
    ensures { OwnSays tasks.now handlers.now span out.old out.new result }
{
    pen::clear(out);
    refusal::of_call(tasks, handlers, &[], span)?;
    let run = Run::fresh(tasks, handlers).run;
    let room = pen::room(out);
    let drawn = draw(tasks, handlers, run, span, room, out);
    if room < drawn.count {
        pen::clear(out);
        return Ok(Answer::TooMany);
    }
    Ok(Answer::Segments {
        count: drawn.count,
        end: drawn.end,
    })
}

// The segments of a run from fresh, as far as there is room.
// Each parameter stands for itself: it is called once, and all but the list are copied.
fn draw(tasks: &[u32], handlers: &[u32], run: Run, span: u64, room: usize, out: &mut [u64]) -> Drawn
    requires { Started tasks.now handlers.now run span room out.old }
    ensures { DrawnTo tasks.now handlers.now span room out.old out.new result }
{
    let mut at = run;
    let mut clock = 0;
    let mut pen = Pen {
        ran: Ran::Idle,
        from: 0,
        count: 0,
    };
    // No `for`: a turn is as long as it is.
    while (clock < span) & !at.over & (pen.count <= room) {
        let next = turn::turn(tasks, handlers, at, clock, span);
        pen = pen::moved(pen, next.ran, clock, room, out);
        at = next.run;
        clock += next.ticks;
    }
    let count = pen::closed(pen, clock, room, out);
    Drawn { count, end: clock }
}
