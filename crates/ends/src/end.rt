// An end of an exchange: what it works by, and what it holds of its sessions.
mod answering_calls;
mod calls;
mod opening_calls;

use crate::answering::AnsweringState;
use crate::opening::OpeningState;
use crate::works::Works;

#[derive(Drop)]
pub struct End<'r, R, S, T> {
    pub(crate) works: Works<'r, R, S>,
    pub(crate) state: T,
}

// The end that opens sessions.
pub type OpeningEnd<'r, R, S> = End<'r, R, S, OpeningState>;

// The end that answers offers.
pub type AnsweringEnd<'r, R, S> = End<'r, R, S, AnsweringState>;
