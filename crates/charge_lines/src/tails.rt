// What a line says of a table, behind its name.
ghost use Rattle.std.specs.Prelude.{◌≡◌};
ghost use Rattle.charge_lines.specs.Line.{word_field, part_field, tail_of};
ghost use Rattle.text.specs.Text.{puts_of};

use charges::figures::{Figures, Word};
use text::Text;

// A comma and a word.
fn field(word: Word) -> &'static [u8]
    ensures { result.now ≡ word_field word }
{
    match word {
        Word::Fits => b",fits",
        Word::Misses => b",misses",
        Word::None => b",none",
        Word::Refused => b",refused",
    }
}

// The word and the load of a charge more.
fn part(text: Text, said: Word, load: u64) -> Text
    ensures { result ≡ puts_of text (part_field said load) }
{
    text::fields(text::puts(text, field(said)), &[load])
}

// All of it.
pub fn of_figures(figures: Figures) -> Text
    ensures { result ≡ tail_of figures }
{
    let exact = text::of(field(figures.exact));
    let a = text::fields(exact, &[figures.code, figures.load]);
    let b = part(a, figures.quantum, figures.quantum_load);
    let c = part(b, figures.task, figures.task_load);
    text::puts(c, b"\r\n")
}
