// The two lines of a schedule that was judged.
ghost use Rattle.std.specs.Prelude.{◌≡◌};
ghost use Rattle.schedule_sheet.specs.Printed.{word_text, printed};
ghost use Rattle.segments.specs.Promise.{figures};

use demand::refusal::Refusal;
use text::Text;

#[tactic(auto, unfolding(segments::specs::Promise::figures))]
fn word(answer: Result<Option<u64>, Refusal>) -> &'static [u8]
    ensures { result.now ≡ word_text (figures answer).word }
{
    match answer {
        Ok(None) => b"accepted",
        Ok(Some(_)) => b"broken",
        Err(_) => b"refused",
    }
}

// The printed lines of an answer; figures that don't apply are 0.
pub fn of_answer(answer: Result<Option<u64>, Refusal>) -> Text
    ensures { result ≡ printed (figures answer) }
{
    let head = text::of(b"schedule,code,tick\r\n");
    let named = text::puts(head, word(answer));
    let numbers = segments::numbers(answer);
    text::puts(text::fields(named, &numbers[1..]), b"\r\n")
}
