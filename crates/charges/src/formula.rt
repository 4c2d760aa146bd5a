// Formula 2 of document 001: what handlers take of an interval, each bounded apart from the others.
ghost use Rattle.std.specs.Prelude.{◌≡◌, ◌≤◌};
ghost use Rattle.charges.specs.Ways.{bound, bounds};
ghost use Rattle.demand.specs.Inside.Sizes.{Small};
ghost use Rattle.demand.specs.Limits.{ticks_most};
ghost use Rattle.demand.specs.Refusals.{FairRow};
ghost use Rattle.demand.specs.Rows.{row_of, handlers_of};

use demand::table;
use demand::table::{Kind, Row};

// Of one handler: its cost for each whole period, and for the rest its cost or, where that is less, the rest.
fn bound(row: Row, l: u64) -> u64
    requires { FairRow (row_of row) × (l ≤ ticks_most) }
    ensures { result ≡ bound l (row_of row) }
{
    row.cost * (l / row.period) + row.cost.min(l % row.period)
}

// The sum over handlers.
pub fn bounds(handlers: &[u32], l: u64) -> u64
    requires { Small (handlers_of handlers.now) l }
    ensures { result ≡ bounds (handlers_of handlers.now) l }
{
    let own = table::width(Kind::Handler);
    if handlers.len() < own {
        return 0;
    }
    let handler = table::head(Kind::Handler, handlers);
    // By the rest of the list, as it is defined: a fold would be stated through its closure.
    let rest = bounds(&handlers[own..], l);
    bound(handler, l) + rest
}
