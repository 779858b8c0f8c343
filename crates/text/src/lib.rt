// What programs that read lines of text need: words, decimal numbers and hex, all over bytes.
#![tactic(auto)]

pub mod decimal;
pub mod hex;
pub mod words;
