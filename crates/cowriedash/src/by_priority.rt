// Fixed priorities for C.
ghost use Rattle.cowriedash.specs.ByPriority.{ResponsesFigured, ResponsesTold};

use demand::refusal::Refusal;
use demand::table::TASKS_MOST;

// The response of each task by fixed priority into out, 0 for none; the refusal's number or 0.
#[unsafe(no_mangle)]
pub extern "C" fn cowriedash_responses(
    tasks: &[u32],
    handlers: &[u32],
    out: &mut [u64; TASKS_MOST],
) -> u32
    ensures { ResponsesTold tasks.now handlers.now result out.new }
{
    tell(priority::responses(tasks, handlers), out)
}

// What is told of responses: the refusal's number or 0, the lengths into out, zeros where there is a refusal.
#[tactic(auto, unfolding(priority::specs::Answers::figures, priority::specs::Answers::no_lengths))]
pub fn tell(answer: Result<[u64; TASKS_MOST], Refusal>, out: &mut [u64; TASKS_MOST]) -> u32
    ensures { ResponsesFigured answer result out.new }
{
    match answer {
        Ok(least) => {
            *out = least;
            0
        }
        Err(refusal) => {
            *out = [0; TASKS_MOST];
            refusal.number()
        }
    }
}
