// The licensees' library: the demands and the verdict for C, with numbers and slices only at the boundary.
#![tactic(auto)]

pub mod by_priority;
pub mod charged;
pub mod guard_rows;
pub mod held_by_column;
pub mod judged;
pub mod trimmed;

ghost use Rattle.cowriedash.specs.Numbers.{demand_numbers, handler_numbers, MarginFigured};
ghost use Rattle.cowriedash.specs.Numbers.{VerdictTold, HandlerTold, TaskTold, MarginTold};
ghost use Rattle.std.specs.Prelude.{◌≡◌};

use demand::refusal::Refusal;
use demand::{Share, Spare};
use verdict::NUMBERS;

// The two numbers of a demand: the refusal's number or 0, then the ticks.
fn demand_numbers(answer: Result<u64, Refusal>) -> [u64; 2]
    ensures { result ≡ demand_numbers answer }
{
    match answer {
        Ok(ticks) => [0, ticks],
        Err(refusal) => [u64::from(refusal.number()), 0],
    }
}

// The three numbers of a handler demand: the refusal's number or 0, the ticks, then the work left over.
fn handler_numbers(answer: Result<Share, Refusal>) -> [u64; 3]
    ensures { result ≡ handler_numbers answer }
{
    match answer {
        Ok(Share { ticks, left }) => [0, ticks, left],
        Err(refusal) => [u64::from(refusal.number()), 0, 0],
    }
}

// The verdict on a table: 0 fits, 1 misses, 2 refused; then the numbers of the printed line.
#[unsafe(no_mangle)]
pub extern "C" fn cowriedash_verdict(tasks: &[u32], handlers: &[u32], out: &mut [u64; NUMBERS])
    ensures { VerdictTold tasks.now handlers.now out.new }
{
    *out = verdict::numbers(verdict::verdict(tasks, handlers));
}

// Handler demand at l.
#[unsafe(no_mangle)]
pub extern "C" fn cowriedash_handler_demand(
    tasks: &[u32],
    handlers: &[u32],
    l: u64,
    out: &mut [u64; 3],
)
    ensures { HandlerTold tasks.now handlers.now l out.new }
{
    *out = handler_numbers(demand::handler_demand(tasks, handlers, l));
}

// Task demand at l.
#[unsafe(no_mangle)]
pub extern "C" fn cowriedash_task_demand(
    tasks: &[u32],
    handlers: &[u32],
    l: u64,
    out: &mut [u64; 2],
)
    ensures { TaskTold tasks.now handlers.now l out.new }
{
    *out = demand_numbers(demand::task_demand(tasks, handlers, l));
}

// A margin, laid where the caller lends.
fn lay(spare: Spare, out: &mut i64, left: &mut u64)
    ensures ticks { out.new ≡ spare.ticks }
    ensures left { left.new ≡ spare.left }
{
    *out = spare.ticks;
    *left = spare.left;
}

// What is told of a margin: the refusal's number or 0, the ticks into out and the handlers' work left over into left.
#[tactic(auto, unfolding(demand::specs::Answers::margin_figures))]
fn tell(answer: Result<Spare, Refusal>, out: &mut i64, left: &mut u64) -> u32
    ensures { MarginFigured answer result out.new left.new }
{
    match answer {
        Ok(spare) => {
            lay(spare, out, left);
            0
        }
        Err(refusal) => {
            *out = 0;
            *left = 0;
            refusal.number()
        }
    }
}

// The margin at l: the refusal's number or 0, the ticks into out and the handlers' work left over into left.
#[unsafe(no_mangle)]
pub extern "C" fn cowriedash_margin(
    tasks: &[u32],
    handlers: &[u32],
    l: u64,
    out: &mut i64,
    left: &mut u64,
) -> u32
    ensures { MarginTold tasks.now handlers.now l result out.new left.new }
{
    tell(demand::margin(tasks, handlers, l), out, left)
}
