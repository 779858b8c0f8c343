// What an opening end holds between calls.
mod session;

#[derive(Clone, Copy, PartialEq, Eq, Debug)]
pub enum OpeningPhase {
    // No session is open.
    Idle,
    // An offer was written, and its answer is awaited.
    Waiting,
    // The key is there.
    Keyed,
}

// The arrays stand beside the phase, and not in it: there is no heap, a change of phase would move 48 KiB, and an end that
// forgets has to overwrite them where they are.
#[derive(Drop)]
pub struct OpeningState {
    pub phase: OpeningPhase,
    // Of the latest session; 0 before the first.
    pub number: u16,
    pub seed: [u8; 32],
    // X1 and Y1, row by row.
    pub secret: [i16; 8192],
    pub image: [u16; 8192],
    pub digits: [u16; 64],
    // Room for E1 while a session is opened; zeros between calls.
    pub noise: [i16; 8192],
}
