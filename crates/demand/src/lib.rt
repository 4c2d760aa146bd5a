// The two demands of a table and the margin that they leave: what every sheet stands on.
#![tactic(auto)]

pub mod arrivals;
pub mod events;
pub mod flat;
pub mod multiples;
pub mod refusal;
mod rows;
mod signed;
pub mod table;

ghost use Rattle.std.specs.Prelude.{◌≡◌, ◌≤◌, length};
ghost use Rattle.demand.specs.Answers.{DemandSays, HandlerSays, MarginSays};
ghost use Rattle.demand.specs.Demands.{handled, left, due};
ghost use Rattle.demand.specs.Inside.Sizes.{Small};
ghost use Rattle.demand.specs.Limits.{handlers_most};
ghost use Rattle.demand.specs.Refusals.{asked_refusal};
ghost use Rattle.demand.specs.Rows.{tasks_of, handlers_of};

use events::Event;
use refusal::Refusal;
use table::{HANDLERS_MOST, Kind};
use walk::Entry;

// The ticks that handlers take, and the work that they leave over.
#[derive(Clone, Copy)]
pub struct Share {
    pub ticks: u64,
    pub left: u64,
}

// What both demands leave of an interval, below 0 where it fails, and the work that handlers leave over.
#[derive(Clone, Copy)]
pub struct Spare {
    pub ticks: i64,
    pub left: u64,
}

// Handler demand f at l: the ticks of an interval of l that handlers take, and the work that they leave over.
pub fn handler_demand(tasks: &[u32], handlers: &[u32], l: u64) -> Result<Share, Refusal>
    ensures { HandlerSays (asked_refusal tasks.now handlers.now l)
        (handlers_of handlers.now) l result }
{
    refusal::of_question(tasks, handlers, l)?;
    let ticks = handled(handlers, l);
    let left = left(handlers, l, ticks);
    Ok(Share { ticks, left })
}

// Task demand D at l: the work of tasks that is due within l ticks.
pub fn task_demand(tasks: &[u32], handlers: &[u32], l: u64) -> Result<u64, Refusal>
    ensures { DemandSays (asked_refusal tasks.now handlers.now l) (due (tasks_of tasks.now) l) result }
{
    refusal::of_question(tasks, handlers, l)?;
    Ok(rows::due(tasks, l))
}

// Margin at l: l - f(l) - D(l), below 0 exactly where the interval fails, and the work that handlers leave over.
pub fn margin(tasks: &[u32], handlers: &[u32], l: u64) -> Result<Spare, Refusal>
    ensures { MarginSays (asked_refusal tasks.now handlers.now l)
        (tasks_of tasks.now) (handlers_of handlers.now) l result }
{
    refusal::of_question(tasks, handlers, l)?;
    let f = handled(handlers, l);
    let d = rows::due(tasks, l);
    let left = left(handlers, l, f);
    Ok(Spare {
        ticks: signed::less_both(l, f, d),
        left,
    })
}

// The work that handlers leave over at the end of l ticks, of which they take f.
fn left(handlers: &[u32], l: u64, f: u64) -> u64
    requires { Small (handlers_of handlers.now) l × (f ≡ handled (handlers_of handlers.now) l) }
    ensures { result ≡ left (handlers_of handlers.now) l }
{
    rows::called(Kind::Handler, handlers, l) - f
}

// f at l: whole periods of the handlers are counted, and only the rest is walked. A period above the limit is longer than l.
fn handled(handlers: &[u32], l: u64) -> u64
    requires { Small (handlers_of handlers.now) l × (length (handlers_of handlers.now) ≤ handlers_most) }
    ensures { result ≡ handled (handlers_of handlers.now) l }
{
    let Some(own) = multiples::of_rows(Kind::Handler, handlers, 1) else {
        return walked(handlers, l);
    };
    if l < own {
        return walked(handlers, l);
    }
    let work = rows::called(Kind::Handler, handlers, own);
    if own <= work {
        return l;
    }
    l / own * work + walked(handlers, l % own)
}

// f at l, along the arrivals up to it.
fn walked(handlers: &[u32], l: u64) -> u64
    requires { Small (handlers_of handlers.now) l × (length (handlers_of handlers.now) ≤ handlers_most) }
    ensures { result ≡ handled (handlers_of handlers.now) l }
{
    let mut room = [Entry::NONE; HANDLERS_MOST];
    let k = events::begin(Kind::Handler, Event::Arrival, handlers, &mut room);
    let end = arrivals::to(&mut room[k..], arrivals::start(), l);
    end.taken
}
