// The least common multiple of rows' periods, as far as the limit.
ghost use Rattle.std.specs.Prelude.{◌≡◌, ◌≤◌, ◌<◌};
ghost use Rattle.demand.specs.Limits.{ticks_most};
ghost use Rattle.demand.specs.Multiples.{lcm_from, limited};
ghost use Rattle.demand.specs.Refusals.{FairRow};
ghost use Rattle.demand.specs.Rows.{rows_of, Each};

use crate::table;
use crate::table::{Kind, TICKS_MOST};

// The least common multiple of a and the periods of s, where it is within the limit: a partial one above it ends the search.
pub fn of_rows(kind: Kind, s: &[u32], a: u64) -> Option<u64>
    requires { Each FairRow (rows_of kind s.now) × (0 < a) × (a ≤ ticks_most) }
    ensures { result ≡ limited (lcm_from a (rows_of kind s.now)) }
{
    let own = table::width(kind);
    let mut m = a;
    let mut rest = s;
    // The rest of the list, as its rows are defined by the head and what is behind it.
    while own <= rest.len() {
        let row = table::head(kind, rest);
        m = m / euclid::gcd(m, row.period) * row.period;
        if TICKS_MOST < m {
            return None;
        }
        rest = &rest[own..];
    }
    Some(m)
}
