// Why a noise law refused a call.
ghost use Rattle.std.specs.Prelude.{Some};
ghost use Rattle.noise.specs.Faults.{number, place, words};

use refusal::{Fault, Refusal};
use std::error::Error;
use std::fmt;

#[derive(Clone, Copy, PartialEq, Eq, Debug)]
pub enum NoiseFault {
    // No law has the number.
    Law,
    // The word has more bits than the law's width.
    Word,
}

impl Fault for NoiseFault {
    ghost number_of = { number };

    ghost place_of = { place };

    ghost words_of = { words };

    // A law's refusals all stand at place 0.
    fn refusal(&self) -> Refusal {
        match self {
            NoiseFault::Law => Refusal::new(1, "no noise law has the number"),
            NoiseFault::Word => Refusal::new(5, "a noise word is out of range"),
        }
    }
}

impl fmt::Display for NoiseFault {
    ghost output = { λ fault. Some (words fault) };

    fn fmt<W: fmt::Write>(&self, f: &mut fmt::Formatter<W>) -> fmt::Result {
        f.write_str(self.words())
    }
}

impl Error for NoiseFault {}
