//! Tests of what `bmcnet apply` and `bmcnet revert` say at their ends, and with their options. They stand apart from the crates that they test, which
//! would be proved once more with tests of their own.
#![tactic(auto)]

#[cfg(test)]
mod foretold;
#[cfg(test)]
mod kept;
#[cfg(test)]
mod narrowed;
#[cfg(test)]
mod reverted;
#[cfg(test)]
mod tests;
