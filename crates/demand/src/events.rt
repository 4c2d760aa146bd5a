// The rows of a table as events, for a walk along them.
ghost use Rattle.std.specs.Prelude.{◌≡◌, ◌≤◌, length, drop};
ghost use Rattle.demand.specs.Inside.Events.{first_of, Placeable, Begun};
ghost use Rattle.demand.specs.Rows.{rows_of};

use crate::table;
use crate::table::Kind;
use walk::Entry;

// What brings a row's work: its arrivals, the first of which counts from the first tick on, or its deadlines.
#[derive(Clone, Copy)]
pub enum Event {
    Arrival,
    Deadline,
}

// The tick of a row's first event.
fn first(event: Event, deadline: u64) -> u64
    ensures { result ≡ first_of event deadline }
{
    match event {
        Event::Arrival => 1,
        Event::Deadline => deadline,
    }
}

// Puts the events of the rows of s in order into the last places of q; the answer is where they start.
pub fn begin(kind: Kind, event: Event, s: &[u32], q: &mut [Entry]) -> usize
    requires { Placeable (rows_of kind s.now) (length q.old) }
    ensures { (result ≤ length q.old) × Begun event (rows_of kind s.now) (drop result q.new) }
{
    let step = table::width(kind);
    let mut k = q.len();
    let mut rest = s;
    // The rest of the list, as its rows are defined by the head and what is behind it; a walk by pieces would read no plainer.
    while step <= rest.len() {
        let row = table::head(kind, rest);
        let entry = Entry {
            next: first(event, row.deadline),
            cost: row.cost,
            period: row.period,
        };
        k = walk::add(q, k, entry);
        rest = &rest[step..];
    }
    k
}
