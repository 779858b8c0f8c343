// The exchange from learning with errors: its four products, and the drift of the two sums.
// There is no heap: a matrix lies at the front of an array that holds the largest.
#![tactic(auto)]

mod arithmetic;
pub mod drift;
mod entry;
pub mod fault;
pub mod images;
mod products;
pub mod sizes;
pub mod sums;
pub mod theorems;
