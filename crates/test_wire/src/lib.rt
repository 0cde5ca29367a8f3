//! Tests of the crates that read and write the bytes on both buses. They stand apart from these crates, each of which would be
//! proved once more with tests of its own.
#![tactic(auto)]

#[cfg(test)]
mod tests;
