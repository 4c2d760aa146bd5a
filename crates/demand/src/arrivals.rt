// f along the arrivals of handlers: between two of them it grows by a formula.
ghost use Rattle.std.specs.Prelude.{◌≡◌, ◌≤◌, length};
ghost use Rattle.demand.specs.Inside.Arrivals.{outset, waited, Level, Come};
ghost use Rattle.demand.specs.Inside.Sizes.{due_most};
ghost use Rattle.demand.specs.Limits.{ticks_most};

use walk::Entry;

// How far handlers have come: at `at`, so many ticks taken of the work called for.
#[derive(Clone, Copy)]
pub struct Progress {
    pub at: u64,
    pub taken: u64,
    pub called: u64,
}

// Before the first tick.
pub fn start() -> Progress
    ensures { result ≡ outset }
{
    Progress {
        at: 0,
        taken: 0,
        called: 0,
    }
}

// At m, where nothing arrives up to m: a tick is taken for each, up to all the work called for.
fn wait(p: Progress, m: u64) -> Progress
    requires { (p.at ≤ m) × (m ≤ ticks_most) × (p.taken ≤ due_most) }
    ensures { result ≡ waited p m }
{
    Progress {
        at: m,
        taken: (p.taken + (m - p.at)).min(p.called),
        called: p.called,
    }
}

// At m, from one arrival to the next.
fn along(q: &mut [Entry], p: Progress, m: u64) -> Progress
    requires { Level q.old p m × (1 ≤ length q.old) }
    ensures { Come q.old p m q.new result }
{
    let mut w = p;
    // No `for`: how many arrivals come up to m, the entries tell on the way.
    while q[0].next <= m {
        w = wait(w, q[0].next - 1);
        w.called = walk::take(q, w.called);
    }
    wait(w, m)
}

// At m, by the arrivals q that are still to come.
pub fn to(q: &mut [Entry], p: Progress, m: u64) -> Progress
    requires { Level q.old p m }
    ensures { Come q.old p m q.new result }
{
    if q.is_empty() {
        return wait(p, m);
    }
    along(q, p, m)
}
