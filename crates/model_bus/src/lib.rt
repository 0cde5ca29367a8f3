//! Requests and replies over a bus that loses, repeats and delays frames: the rule by which a port carries each request
//! out at most once, and what it means for a manager. The code is the numbers of a bus.
#![tactic(auto)]

pub mod examples;
pub mod laws;
mod numbers;

pub use numbers::{
    CONTROL_MESSAGE_TYPE, PLDM_MESSAGE_TYPE, REQUESTERS, constants_are_the_definitions, span,
};
