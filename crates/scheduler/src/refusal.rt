// Refusals 6 to 11: the one of the lowest number that applies to a step.
ghost use Rattle.std.specs.Prelude.{◌≡◌};
ghost use Rattle.demand.specs.Numbered.{refused};
ghost use Rattle.scheduler.specs.Steps.{step_refusal};

use crate::{Run, arrivals, bounds};
use demand::refusal::Refusal;

// The refusal of a step of this run.
pub fn of_step(run: &Run, arrivals: &[u32]) -> Result<(), Refusal>
    ensures { refused result ≡ step_refusal run.now arrivals.now }
{
    if bounds::out_of_bounds(run) {
        return Err(Refusal::RunOutOfBounds);
    }
    if run.over {
        return Err(Refusal::RunOver);
    }
    if run.clock == Run::TICKS_MOST {
        return Err(Refusal::ClockAtEnd);
    }
    if arrivals.len() != run.task_count + run.handler_count {
        return Err(Refusal::ArrivalsMiscounted);
    }
    if arrivals::some_early(run, arrivals) {
        return Err(Refusal::ArrivalEarly);
    }
    if arrivals::some_heavy(run, arrivals) {
        return Err(Refusal::ArrivalHeavy);
    }
    Ok(())
}
