// Table files: the bytes of a file in, the table that it says out.
#![tactic(auto)]

pub mod reader;
mod steps;
mod words;
