// Files of schedules: the bytes of a file in, the segments that it says out.
#![tactic(auto)]

pub mod reader;
mod steps;
