// The two ends of an exchange.
#![tactic(auto)]

pub mod answering;
mod draws;
mod end;
pub mod fault;
pub mod opening;
mod places;
mod session;
pub mod theorems;
mod wipe;
mod works;
