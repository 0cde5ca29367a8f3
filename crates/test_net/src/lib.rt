//! Tests of links that fail, of links over UDP, and of what the program `bmcnet` does, over files and writers in memory. They stand apart from the crates
//! that they test, each of which would be proved once more with tests of its own.
#![tactic(auto)]

#[cfg(test)]
mod tests;
