// The two lines of a sheet.
ghost use Rattle.std.specs.Prelude.{[], ◌≡◌, Ok};
ghost use Rattle.sheet.specs.Printed.{word_text, lines, printed};
ghost use Rattle.text.specs.Text.{puts_of};
ghost use Rattle.verdict.specs.Promise.{refusal_of, figures};

use demand::refusal::Refusal;
use text::Text;
use verdict::Answer;

#[tactic(auto, unfolding(verdict::specs::Promise::figures))]
fn word(answer: Answer) -> &'static [u8]
    ensures { result.now ≡ word_text (figures (Ok answer)).word }
{
    match answer {
        Answer::Fits { .. } => b"fits",
        Answer::Misses { .. } => b"misses",
    }
}

// The lines of a word and its numbers, as far as a text has room.
fn lines(word: &[u8], numbers: &[u64]) -> Text
    ensures { result ≡ puts_of [] (lines word.now numbers.now) }
{
    let head = text::of(b"verdict,code,interval,handler,task,load,left,tested\r\n");
    let named = text::puts(head, word);
    text::puts(text::fields(named, numbers), b"\r\n")
}

// The printed lines of an answer; figures that don't apply are 0.
pub fn of_answer(answer: Result<Answer, Refusal>) -> Text
    ensures { result ≡ printed (figures answer) }
{
    match answer {
        Ok(told) => {
            let numbers = verdict::numbers(answer);
            lines(word(told), &numbers[1..])
        }
        Err(refusal) => of_refusal(refusal.number()),
    }
}

// Those of a refusal. By its number: they are promised for each number, those of no refusal too.
pub fn of_refusal(number: u32) -> Text
    ensures { result ≡ printed (refusal_of number) }
{
    let numbers = verdict::refused_numbers(number);
    lines(b"refused", &numbers[1..])
}
