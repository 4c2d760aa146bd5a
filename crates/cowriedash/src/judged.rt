// A schedule from elsewhere, judged for C.
ghost use Rattle.cowriedash.specs.Judged.{JudgeTold};

use segments::NUMBERS;

// Segments are four numbers each: kind, row, from, to. The word (0 accepted, 1 broken, 2 refused), the refusal's number or 0, and the first
// tick at which a rule is broken or 0.
#[unsafe(no_mangle)]
pub extern "C" fn cowriedash_judge(
    tasks: &[u32],
    handlers: &[u32],
    list: &[u64],
    span: u64,
    out: &mut [u64; NUMBERS],
)
    ensures { JudgeTold tasks.now handlers.now list.now span out.new }
{
    *out = segments::numbers(segments::judge(tasks, handlers, list, span));
}
