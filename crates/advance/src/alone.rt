// What is left of a piece after its first tick: the one that runs goes on until its work is done, the ticks asked for are over, or
// a deadline of a task owed work, or the last tick, is reached.
ghost use Rattle.std.specs.Prelude.{◌≡◌, ◌+◌, ◌≤◌};
ghost use Rattle.advance.specs.Inside.Alone.{Placed, PayableBy, Follows, work_of, nearer, first_due, lasts, paid_by, slid, piece_after};
ghost use Rattle.demand.specs.Limits.{tasks_most, ticks_most};

use crate::{Piece, quiet};
use scheduler::sizes::PLACES;
use scheduler::{Ran, Run};

// The work of the one that runs; the last tick where nobody does.
fn work_of(run: &Run, ran: Ran) -> u64
    requires { (run.now.task_count ≤ tasks_most) × Placed ran }
    ensures { result ≡ work_of run.now.owed run.now.task_count ran }
{
    match ran {
        Ran::Handler { row } => run.owed[run.task_count + row],
        Ran::Task { row } => run.owed[row],
        Ran::Idle => Run::TICKS_MOST,
    }
}

fn nearer(first: u64, owed: u64, due: u64) -> u64
    ensures { result ≡ nearer first owed due }
{
    if owed == 0 { first } else { first.min(due) }
}

// The earliest deadline of a task owed work; the last tick where there is none before it.
fn first_due(run: &Run) -> u64
    requires { run.now.task_count ≤ tasks_most }
    ensures { result ≡ first_due run.now.due run.now.owed run.now.task_count }
{
    let mut first = Run::TICKS_MOST;
    for k in 0..run.task_count {
        first = nearer(first, run.owed[k], run.due[k]);
    }
    first
}

// How many of the ticks that are left go to the same one; none where the run is over.
// The flag is the run's own; both ways are a number of ticks.
fn lasts(over: bool, clock: u64, left: u64, work: u64, first: u64) -> u64
    ensures { result ≡ lasts over clock left work first }
{
    if over {
        return 0;
    }
    left.min(work.min(first.saturating_sub(clock)))
}

// So many ticks take as many units of the work of the one to whom they go. Apart from `pay` of the scheduler, which would have to lend
// the inside of a tick to all who use it.
fn pay_by(owed: &mut [u64; PLACES], n: usize, ran: Ran, ticks: u64)
    requires { (n ≤ tasks_most) × PayableBy owed.old n ran ticks }
    ensures { owed.new ≡ paid_by owed.old n ran ticks }
{
    match ran {
        Ran::Handler { row } => owed[n + row] -= ticks,
        Ran::Task { row } => owed[row] -= ticks,
        Ran::Idle => {}
    }
}

// The run so many ticks on, all of which went to one row and at none of which someone was late.
fn slide(run: Run, ran: Ran, ticks: u64) -> Run
    requires { (run.task_count ≤ tasks_most) × PayableBy run.owed run.task_count ran ticks
        × (run.clock + ticks ≤ ticks_most) }
    ensures { result ≡ slid run ran ticks }
{
    let mut after = run;
    pay_by(&mut after.owed, run.task_count, ran, ticks);
    after.clock += ticks;
    after.over = false;
    after.late = None;
    after
}

// The piece whose first tick went to ran and left this run. Its last tick is a step, which finds who is late.
pub fn piece_after(run: Run, ran: Ran, left: u64) -> Piece
    requires { Follows run ran }
    ensures { result ≡ piece_after run ran left }
{
    let more = lasts(
        run.over,
        run.clock,
        left,
        work_of(&run, ran),
        first_due(&run),
    );
    if more == 0 {
        return Piece {
            run,
            ran,
            ticks: 1,
            refusal: None,
        };
    }
    let before = slide(run, ran, more - 1);
    Piece {
        run: quiet::step(before).run,
        ran,
        ticks: more + 1,
        refusal: None,
    }
}
