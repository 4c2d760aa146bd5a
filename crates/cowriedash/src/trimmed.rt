// Trimming a table for C.
ghost use Rattle.cowriedash.specs.Trimmed.{TrimTold};

use trim::NUMBERS;

// The greatest cost of the task at row at which the table fits: the refusal's number or 0, the present cost, and the new one or 0 for none.
#[unsafe(no_mangle)]
pub extern "C" fn cowriedash_trim(
    tasks: &[u32],
    handlers: &[u32],
    row: usize,
    out: &mut [u64; NUMBERS],
)
    ensures { TrimTold tasks.now handlers.now row out.new }
{
    *out = trim::numbers(trim::trim(tasks, handlers, row));
}
