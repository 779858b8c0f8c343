// SHAKE128 of FIPS 202, and the permutation that it is built on.
#![tactic(auto)]

pub mod permutation;
pub mod sponge;
pub mod theorems;
