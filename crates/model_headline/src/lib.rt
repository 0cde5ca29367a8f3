//! A lab and the model's world: what a lab does at an event, the model of two buses does. The headline's statement, whole and short, and the law
//! that says that it holds. Beside it stands what the requests of a greeting and of a look do to a board. There is no code here: each law is the
//! contract of a function without a body.
#![tactic(auto)]

pub mod histories;
pub mod laws;
pub mod request_laws;
pub mod statement;
