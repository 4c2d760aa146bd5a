// The sizes of a run's arrays.
use demand::table::{HANDLERS_MOST, TASKS_MOST};

// Numbers of the most tasks, and of the most handlers.
pub const TASK_NUMBERS: usize = 3 * TASKS_MOST;

pub const HANDLER_NUMBERS: usize = 2 * HANDLERS_MOST;

// A place for each row, handlers behind tasks.
pub const PLACES: usize = TASKS_MOST + HANDLERS_MOST;
