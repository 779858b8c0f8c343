// Consensus rules: two sides that hold nearly the same sum agree on a digit with the help of a public hint.
#![tactic(auto)]

pub mod akcn;
pub mod arithmetic;
pub mod carry;
pub mod evenness;
pub mod examples;
pub mod fault;
pub mod kind;
pub mod numbers;
pub mod okcn;
pub mod rule;
