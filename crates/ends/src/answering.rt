// What an answering end holds between calls.
mod session;

#[derive(Clone, Copy, PartialEq, Eq, Debug)]
pub enum AnsweringPhase {
    // No key is held.
    Idle,
    // An offer was heard and answered, and the key is there.
    Keyed,
}

// The arrays stand beside the phase for the reasons that hold for an opening end.
#[derive(Drop)]
pub struct AnsweringState {
    pub phase: AnsweringPhase,
    // Of the latest session that was heard; 0 before the first.
    pub number: u16,
    // Y2, row by row.
    pub image: [u16; 8192],
    pub hints: [u16; 64],
    pub digits: [u16; 64],
    // Room for X2, E2 and Eσ while an offer is heard; zeros between calls.
    pub secret: [i16; 8192],
    pub noise: [i16; 8192],
    pub sum_noise: [i16; 64],
}
