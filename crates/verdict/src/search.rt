// The search for the shortest interval that fails: test lengths only, in increasing order, f and D carried along.
ghost use Rattle.std.specs.Prelude.{◌≡◌, ◌≤◌};
ghost use Rattle.demand.specs.Inside.Events.{Begun};
ghost use Rattle.demand.specs.Limits.{ticks_most};
ghost use Rattle.demand.specs.Refusals.{table_refusal};
ghost use Rattle.demand.specs.Rows.{tasks_of, handlers_of};
ghost use Rattle.demand.specs.Tests.{pick};
ghost use Rattle.demand.specs.declared.events.Event.TheVariants.{Arrival, Deadline};
ghost use Rattle.verdict.specs.Inside.Search.{FoundSays, end_by};

use crate::{Miss, drain};
use demand::events::Event;
use demand::table::{HANDLERS_MOST, Kind, TASKS_MOST};
use demand::{arrivals, events};
use walk::Entry;

// The shortest interval that fails, or that there is none, with how many lengths were tested.
// Both are findings with figures of their own, so neither is an error, and this is no Result.
#[derive(Clone, Copy)]
pub enum Found {
    At { miss: Miss },
    Nothing { tested: u64 },
}

// The smallest end that the facts about H, W and the bound allow.
pub fn end_of(h: u64, w: u64, bound: u64) -> u64
    ensures { result ≡ end_by h w bound }
{
    if h <= w {
        return h;
    }
    if bound == 0 {
        return 0;
    }
    ((bound - 1) / (h - w)).min(h)
}

// How far to look for the idle point before an interval of n ticks is tested: n or not at all, with the same steps either way, so that
// no closure would tell more than the flag.
fn sight(looks: bool, n: u64) -> u64
    ensures { result ≡ pick looks n 0 }
{
    if looks { n } else { 0 }
}

// The shortest interval from 1 to end that fails, along the deadlines t of tasks and the arrivals h of handlers. Where looks is
// true it ends too once all has drained, by the arrivals a of tasks and b of handlers. Both lent lists and all four queues stand alone:
// they are used at this one place, and a struct of them would be built here and taken apart here.
fn search(
    tasks: &[u32],
    handlers: &[u32],
    t: &mut [Entry],
    h: &mut [Entry],
    a: &mut [Entry],
    b: &mut [Entry],
    end: u64,
    looks: bool,
) -> Found
    requires readable { (table_refusal tasks.now handlers.now ≡ 0) × (end ≤ ticks_most) }
    requires begun { Begun Deadline (tasks_of tasks.now) t.old × Begun Arrival (handlers_of handlers.now) h.old }
    requires asked_begun { Begun Arrival (tasks_of tasks.now) a.old × Begun Arrival (handlers_of handlers.now) b.old }
    ensures { FoundSays (tasks_of tasks.now) (handlers_of handlers.now) end looks result }
{
    let mut d = 0;
    let mut p = arrivals::start();
    let mut asked = drain::take_to(a, b, 0, 1);
    let mut tested = 0;
    // No `for`: the test lengths are told by the entries on the way.
    while t[0].next <= end {
        let n = t[0].next;
        let seen = sight(looks, n);
        asked = drain::climb(a, b, asked, seen);
        if asked < seen {
            return Found::Nothing { tested };
        }
        tested += 1;
        p = arrivals::to(h, p, n);
        d = walk::take(t, d);
        if n < p.taken + d {
            let miss = Miss {
                interval: n,
                handler: p.taken,
                task: d,
                left: p.called - p.taken,
                tested,
            };
            return Found::At { miss };
        }
    }
    Found::Nothing { tested }
}

// The shortest interval from 1 to end that fails; where looks is true, none beyond the idle point is looked at.
pub fn first_failing(tasks: &[u32], handlers: &[u32], end: u64, looks: bool) -> Found
    requires { (table_refusal tasks.now handlers.now ≡ 0) × (end ≤ ticks_most) }
    ensures { FoundSays (tasks_of tasks.now) (handlers_of handlers.now) end looks result }
{
    let mut t = [Entry::NONE; TASKS_MOST];
    let mut h = [Entry::NONE; HANDLERS_MOST];
    let mut a = [Entry::NONE; TASKS_MOST];
    let mut b = [Entry::NONE; HANDLERS_MOST];
    let i = events::begin(Kind::Task, Event::Deadline, tasks, &mut t);
    let j = events::begin(Kind::Handler, Event::Arrival, handlers, &mut h);
    let k = events::begin(Kind::Task, Event::Arrival, tasks, &mut a);
    let l = events::begin(Kind::Handler, Event::Arrival, handlers, &mut b);
    search(
        tasks,
        handlers,
        &mut t[i..],
        &mut h[j..],
        &mut a[k..],
        &mut b[l..],
        end,
        looks,
    )
}
