// The lines of charged tables, and how many of them fit, miss or say nothing.
#![tactic(auto)]

pub mod counts;
pub mod files;
mod names;
mod tails;

ghost use Rattle.std.specs.Prelude.{◌≡◌, take};
ghost use Rattle.charge_lines.specs.Line.{printed};

use charges::figures::Figures;

// The longest name of a file, as the system takes it; of a longer one so many bytes are printed.
pub const NAME_MOST: usize = 4095;

// The most bytes of a line: a name whose every byte is a quote, in quotes, and its figures.
pub const LINE_MOST: usize = 8416;

// A line, and zeros behind: there is no heap, and `printed` says every byte.
#[derive(Clone, Copy)]
pub struct Line {
    pub bytes: [u8; LINE_MOST],
    pub len: usize,
}

impl Line {
    // Its bytes.
    pub fn as_bytes(&self) -> &[u8]
        ensures { result.now ≡ take self.now.len self.now.bytes }
    {
        &self.bytes[..self.len.min(LINE_MOST)]
    }
}

// The line of the table with this name.
pub fn of_table(name: &[u8], figures: Figures) -> Line
    ensures { result ≡ printed name.now figures }
{
    let mut bytes = [0u8; LINE_MOST];
    let n = names::count(name);
    let at = names::field(&mut bytes, &name[..n]);
    let tail = tails::of_figures(figures);
    let len = page::lay(&mut bytes, at, tail.as_bytes());
    Line { bytes, len }
}
