//! Tests of the manager, of its greeting and of a look, by frames from outside. They stand apart from the crates that they test, each of
//! which would be proved once more with tests of its own.
#![tactic(auto)]

#[cfg(test)]
mod tests;
