// The places past a run's last row: each must hold 0.
ghost use Rattle.std.specs.Prelude.{◌≡◌};
ghost use Rattle.scheduler.specs.Bounds.{places_used};
ghost use Rattle.scheduler.specs.Inside.Counted.{Fitting};

use crate::{Run, rows};
use demand::table::Kind;

// Is a place past the last row not 0?
pub fn places_used(run: &Run) -> bool
    requires { Fitting run.now.task_count run.now.handler_count }
    ensures { result ≡ places_used run.now }
{
    let n = run.task_count;
    let m = run.handler_count;
    let t = run.tasks[rows::numbers(Kind::Task, n)..]
        .iter()
        .any(|x| *x != 0);
    let h = run.handlers[rows::numbers(Kind::Handler, m)..]
        .iter()
        .any(|x| *x != 0);
    let x = run.next[n + m..].iter().any(|x| *x != 0);
    let d = run.due[n..].iter().any(|x| *x != 0);
    let o = run.owed[n + m..].iter().any(|x| *x != 0);
    t | h | x | d | o
}
