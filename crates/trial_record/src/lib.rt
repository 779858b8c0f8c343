// What a record of the program `trial` gives: a rule is built, a sum is settled, and a second sum recovers the digit.
#![tactic(auto)]

pub mod fault;
pub mod line;
pub mod record;
