// One turn of the synchronous run: a tick with arrivals, or the ticks of one row alone before the next arrival.
ghost use Rattle.std.specs.Prelude.{◌≡◌};
ghost use Rattle.own_segments.specs.Inside.{Turning, Turned};
ghost use Rattle.own_segments.specs.Own.{ran_of};

use crate::arrivals;
use advance::Piece;
use demand::refusal::Refusal;
use scheduler::{Ran, Run, Ticked};

fn ran_of(answer: Result<Ticked, Refusal>) -> Ran
    ensures { result ≡ ran_of answer }
{
    match answer {
        Ok(ticked) => ticked.ran,
        Err(_) => Ran::Idle,
    }
}

// One tick with the arrivals of the clock.
fn arriving(tasks: &[u32], handlers: &[u32], run: Run, clock: u64, span: u64) -> Piece
    requires { Turning tasks.now handlers.now run clock span }
    ensures { Turned tasks.now handlers.now clock span result }
{
    let ws = arrivals::beats(tasks, handlers, clock);
    let all = arrivals::count(tasks, handlers);
    let stepped = run.step(&ws[..all]);
    Piece {
        run: stepped.run,
        ran: ran_of(stepped.answer),
        ticks: 1,
        refusal: None,
    }
}

// The next ticks of one row alone, or of nobody.
pub fn turn(tasks: &[u32], handlers: &[u32], run: Run, clock: u64, span: u64) -> Piece
    requires { Turning tasks.now handlers.now run clock span }
    ensures { Turned tasks.now handlers.now clock span result }
{
    let most = arrivals::gap(tasks, handlers, clock, span - clock);
    if most == 0 {
        arriving(tasks, handlers, run, clock, span)
    } else {
        advance::next_piece(run, most)
    }
}
