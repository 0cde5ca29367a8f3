//! Tests of the ports that bring requests to a board, of boards with a history, which threads share, and of the link in memory. They stand apart from
//! the crates that they test, each of which would be proved once more with tests of its own.
#![tactic(auto)]

#[cfg(test)]
mod tests;
