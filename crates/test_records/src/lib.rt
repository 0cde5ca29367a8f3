//! Tests of the crates of records, of their kinds and of the board: stories that a board is told, and calls one by one.
#![tactic(auto)]

#[cfg(test)]
mod tests;
