// A look at one row over a piece, a stretch of ticks from a on: it was given some ticks before; far is told where no rule is broken.
// A number and no Option, since the least of what all rows tell is asked for, and far is above all ticks of the piece.
ghost use Rattle.std.specs.Prelude.{◌≡◌, suc, ◌-◌, ◌<◌, ◌≤◌, min, max, length};
ghost use Rattle.demand.specs.Demands.{ceil};
ghost use Rattle.demand.specs.Limits.{tasks_most};
ghost use Rattle.demand.specs.Rows.{rows_of, row_at, row_of, Sound};
ghost use Rattle.segments.specs.Inside.{wait_tick, late_clock, lapse_tick, heavy_lapse, lapse_of, run_of, Looked};

use demand::table::Row;

// The first tick from a on at which a row that is given no more is owed work.
pub fn wait(row: Row, given: u64, a: u64) -> u64
    requires { Looked (row_of row) given a }
    ensures { result ≡ max a (wait_tick (row_of row) given) }
{
    a.max(given / row.cost * row.period)
}

// The deadline of the first job that is not complete, of a task that is given no more.
pub fn rest(row: Row, given: u64, a: u64) -> u64
    requires { Looked (row_of row) given a × Sound (row_of row) }
    ensures { result ≡ late_clock (row_of row) given }
{
    given / row.cost * row.period + row.deadline
}

// The first deadline behind a that is not met, of a task that is given every tick from a on.
pub fn run(row: Row, given: u64, a: u64, far: u64) -> u64
    requires { Looked (row_of row) given a × Sound (row_of row) }
    ensures { result ≡ run_of far a (row_of row) given }
{
    let jobs = (a + (row.period - row.deadline)) / row.period;
    let due = jobs * row.period + row.deadline;
    if given + (due - a) < row.cost * (jobs + 1) {
        due
    } else {
        far
    }
}

// The first tick from a on at which a row that is given every tick is not owed work.
pub fn lapse(row: Row, given: u64, a: u64, far: u64) -> u64
    requires { Looked (row_of row) given a }
    ensures { result ≡ lapse_of far a row.cost row.period given }
{
    let calls = (a + 1).div_ceil(row.period);
    if row.cost < row.period {
        light_lapse(row, given, a, calls)
    } else {
        heavy_lapse(row, given, a, far, calls)
    }
}

// The same of a row whose cost is below its period, and which is called for so often up to tick a.
fn light_lapse(row: Row, given: u64, a: u64, calls: u64) -> u64
    requires { Looked (row_of row) given a × (row.cost < row.period) × (calls ≡ ceil (suc a) row.period) }
    ensures { result ≡ lapse_tick row.cost row.period given a }
{
    let last = calls.max(a.saturating_sub(given) / (row.period - row.cost) + 1);
    a + (row.cost * last).saturating_sub(given)
}

// And of one whose cost is not: work that lasts to the next arrival lasts for ever.
fn heavy_lapse(row: Row, given: u64, a: u64, far: u64, calls: u64) -> u64
    requires { Looked (row_of row) given a × (row.period ≤ row.cost) × (calls ≡ ceil (suc a) row.period) }
    ensures { result ≡ heavy_lapse far a row.cost row.period given }
{
    let work = row.cost * calls;
    if a + work < calls * row.period + given {
        a + work.saturating_sub(given)
    } else {
        far
    }
}
