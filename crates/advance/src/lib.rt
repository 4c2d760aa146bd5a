// A run over a stretch without arrivals: piece by piece, in each of which one row alone, or nobody, gets every tick.
#![tactic(auto)]

mod alone;
mod quiet;

ghost use Rattle.std.specs.Prelude.{◌≡◌};
ghost use Rattle.advance.specs.Inside.Alone.{no_tick};
ghost use Rattle.advance.specs.Promise.{PieceSays};
ghost use Rattle.advance.specs.Stretch.{advance_of};

use demand::refusal::Refusal;
use scheduler::{Ran, Run};

// The run after a piece, who got each of its ticks, how many they are, and the refusal where a step is refused at once.
#[derive(Clone, Copy, Debug, PartialEq, Eq)]
pub struct Piece {
    pub run: Run,
    pub ran: Ran,
    pub ticks: u64,
    pub refusal: Option<Refusal>,
}

// The run after a stretch, how many of its ticks were run, and the refusal that ended it, if not all were.
#[derive(Clone, Copy, Debug, PartialEq, Eq)]
pub struct Advanced {
    pub run: Run,
    pub ticks: u64,
    pub refusal: Option<Refusal>,
}

// The longest stretch without arrivals, of at most so many ticks, in which one row, or nobody, gets every tick.
pub fn next_piece(run: Run, most: u64) -> Piece
    ensures { PieceSays run most result }
{
    let first = quiet::step(run);
    match first.answer {
        Err(refusal) => no_tick(run, Some(refusal)),
        Ok(ticked) => {
            if most == 0 {
                no_tick(run, None)
            } else {
                alone::piece_after(first.run, ticked.ran, most - 1)
            }
        }
    }
}

fn no_tick(run: Run, refusal: Option<Refusal>) -> Piece
    ensures { result ≡ no_tick run refusal }
{
    Piece {
        run,
        ran: Ran::Idle,
        ticks: 0,
        refusal,
    }
}

// So many ticks without arrivals, ended where a step is refused: where someone is late, or at the last tick.
pub fn advance(run: Run, ticks: u64) -> Advanced
    ensures { result ≡ advance_of run ticks }
{
    if ticks == 0 {
        return Advanced {
            run,
            ticks: 0,
            refusal: next_piece(run, 0).refusal,
        };
    }
    let mut at = run;
    let mut left = ticks;
    let mut refusal = None;
    // No `for`: a piece is as long as it is.
    while (0 < left) & refusal.is_none() {
        let next = next_piece(at, left);
        at = next.run;
        left -= next.ticks;
        refusal = next.refusal;
    }
    Advanced {
        run: at,
        ticks: ticks - left,
        refusal,
    }
}
