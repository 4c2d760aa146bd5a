// The machine: rows at work, schedules, and what our own schedule does. Definitions and theorems; no code.
#![tactic(auto)]
