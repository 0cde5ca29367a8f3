//! Tests of what `bmclab` does with a frame, with a play and with a command line. They stand apart from the crates that they test, each of which would be
//! proved once more with tests of its own.
#![tactic(auto)]

#[cfg(test)]
mod tests;
