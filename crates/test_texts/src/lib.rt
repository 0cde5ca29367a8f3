//! Tests of the texts that are read and written: board files, plans, undo texts, schedules, and the account of a play. They stand apart
//! from the crates that read them, each of which would be proved once more with tests of its own.
#![tactic(auto)]

#[cfg(test)]
mod tests;
