// How a fresh run is made from a table.
ghost use Rattle.std.specs.Prelude.{◌++◌, ◌≡◌, ◌≤◌, length, drop};
ghost use Rattle.demand.specs.Refusals.{table_refusal};
ghost use Rattle.scheduler.specs.Start.{fresh_run, no_run};

use crate::Run;
use crate::sizes::{HANDLER_NUMBERS, PLACES, TASK_NUMBERS};
use demand::table;
use demand::table::{Kind, TASKS_MOST};

// The numbers of s stand at the start of out.
fn copy_in(out: &mut [u32], s: &[u32])
    requires { length s.now ≤ length out.old }
    ensures { out.new ≡ s.now ++ drop (length s.now) out.old }
{
    out[..s.len()].copy_from_slice(s);
}

// The fresh run of a table that meets no refusal.
pub fn fresh_run(tasks: &[u32], handlers: &[u32]) -> Run
    requires { table_refusal tasks.now handlers.now ≡ 0 }
    ensures { result ≡ fresh_run tasks.now handlers.now }
{
    let mut t = [0u32; TASK_NUMBERS];
    let mut h = [0u32; HANDLER_NUMBERS];
    copy_in(&mut t, tasks);
    copy_in(&mut h, handlers);
    Run {
        tasks: t,
        handlers: h,
        task_count: table::count(Kind::Task, tasks),
        handler_count: table::count(Kind::Handler, handlers),
        ..no_run()
    }
}

// A run of zeros, which stands beside a refusal.
pub fn no_run() -> Run
    ensures { result ≡ no_run }
{
    Run {
        tasks: [0u32; TASK_NUMBERS],
        handlers: [0u32; HANDLER_NUMBERS],
        task_count: 0,
        handler_count: 0,
        clock: 0,
        next: [0u64; PLACES],
        due: [0u64; TASKS_MOST],
        owed: [0u64; PLACES],
        over: false,
        late: None,
    }
}
