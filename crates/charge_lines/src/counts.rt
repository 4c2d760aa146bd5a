// How many lines fit, miss or say nothing, for each way of charging.
ghost use Rattle.std.specs.Prelude.{◌≡◌};
ghost use Rattle.charge_lines.specs.Counts.{counted, way_name, count_line};

use charges::figures::Word;
use text::Text;

// A way of charging.
#[derive(Clone, Copy)]
pub enum Way {
    Exact,
    Quantum,
    Task,
}

#[derive(Clone, Copy)]
pub struct Counts {
    pub fits: u64,
    pub misses: u64,
    pub none: u64,
}

// Where nothing is counted yet.
pub fn start() -> Counts
    ensures { result ≡ record { fits = 0; misses = 0; none = 0 } }
{
    Counts {
        fits: 0,
        misses: 0,
        none: 0,
    }
}

// A line more, with this word, as far as a number goes.
pub fn add(counts: Counts, word: Word) -> Counts
    ensures { result ≡ counted counts word }
{
    match word {
        Word::Fits => Counts {
            fits: counts.fits.saturating_add(1),
            ..counts
        },
        Word::Misses => Counts {
            misses: counts.misses.saturating_add(1),
            ..counts
        },
        Word::None | Word::Refused => Counts {
            none: counts.none.saturating_add(1),
            ..counts
        },
    }
}

fn name(way: Way) -> &'static [u8]
    ensures { result.now ≡ way_name way }
{
    match way {
        Way::Exact => b"exact",
        Way::Quantum => b"quantum",
        Way::Task => b"task",
    }
}

// The line of a way's counts.
pub fn line(way: Way, counts: Counts) -> Text
    ensures { result ≡ count_line way counts }
{
    let numbers = [counts.fits, counts.misses, counts.none];
    text::puts(text::fields(text::of(name(way)), &numbers), b"\r\n")
}
