// Noise laws: small signed values from words of random bits, each value from a fixed count of words.
#![tactic(auto)]

mod bounds;
pub mod examples;
pub mod fault;
pub mod law;
pub mod tables;
