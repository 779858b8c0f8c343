// The two messages of an exchange, an offer and an answer: reading and writing them.
#![tactic(auto)]

mod bytes;
pub mod examples;
pub mod fault;
mod header;
pub mod kind;
pub mod numbers;
pub mod reading;
pub mod writing;
