// Three ways of charging a table's handlers for C.
ghost use Rattle.cowriedash.specs.Charged.{ChargesTold};

use charges::figures;
use charges::figures::NUMBERS;

// The exact verdict's word, the refusal's number or 0, and its load; then word and load by whole quanta, and by task. Words are 0 fits, 1
// misses, 2 refused, 3 none.
#[unsafe(no_mangle)]
pub extern "C" fn cowriedash_charges(
    tasks: &[u32],
    handlers: &[u32],
    quantum: u64,
    out: &mut [u64; NUMBERS],
)
    ensures { ChargesTold tasks.now handlers.now quantum out.new }
{
    let told = figures::of_answer(charges::of_table(tasks, handlers, quantum));
    *out = figures::numbers(told);
}
