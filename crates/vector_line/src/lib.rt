// What a line of the program `vectors` asks for, and what it prints.
#![tactic(auto)]

mod arguments;
pub mod fault;
pub mod line;
pub mod lines;
mod row;
pub mod sample;
mod shake;
