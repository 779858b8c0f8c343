// Why a call of this crate is refused.
ghost use Rattle.std.specs.Prelude.{Some};
ghost use Rattle.lwe.specs.Faults.{number, place, words};

use refusal::{Fault, Refusal};
use std::error::Error;
use std::fmt;

#[derive(Clone, Copy, PartialEq, Eq, Debug)]
pub enum LweFault {
    // A size of the exchange is outside its limits.
    Sizes,
    // A place is out of range.
    Place,
}

impl Fault for LweFault {
    ghost number_of = { number };

    ghost place_of = { place };

    ghost words_of = { words };

    fn refusal(&self) -> Refusal {
        match self {
            LweFault::Sizes => Refusal::new(1, "a size of the exchange is outside its limits"),
            LweFault::Place => Refusal::new(8, "a place is out of range"),
        }
    }
}

impl fmt::Display for LweFault {
    ghost output = { λ fault. Some (words fault) };

    fn fmt<W: fmt::Write>(&self, f: &mut fmt::Formatter<W>) -> fmt::Result {
        f.write_str(self.words())
    }
}

impl Error for LweFault {}
