// The span as it is said: a number in decimal.
ghost use Rattle.std.specs.Prelude.{◌≡◌};
ghost use Rattle.schedule_sheet.specs.Spans.{span_said};

use text::spelled;

// The first number that has more digits than a span may have; it is above every H.
const SPAN_LIMIT: u64 = 10_000_000_000;

// The span that is said, or one above every H where that is no number: it is refused as such a span is (`span_said`).
pub fn span_said(said: &[u8]) -> u64
    ensures { result ≡ span_said said.now }
{
    spelled::number(SPAN_LIMIT, said).unwrap_or(SPAN_LIMIT)
}
