// Matrix sources: square matrices of numbers below a modulus, one for each known seed, read a row at a time.
#![tactic(auto)]

pub mod expanding;
mod expansion;
pub mod fault;
pub mod source;
pub mod table;
