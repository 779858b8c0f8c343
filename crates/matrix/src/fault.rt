// Why a matrix source refused a call.
ghost use Rattle.std.specs.Prelude.{Some};
ghost use Rattle.matrix.specs.Faults.{number, place, words};

use refusal::{Fault, Refusal};
use std::error::Error;
use std::fmt;

#[derive(Clone, Copy, PartialEq, Eq, Debug)]
pub enum SourceFault {
    // The side, the modulus or the count of numbers does not make a source.
    Shape,
    // A column is read before any turn.
    NotTurned,
    // The row is not below the side.
    Row,
    // The column is not below the side.
    Column,
    // The source does not know the seed.
    UnknownSeed,
}

impl Fault for SourceFault {
    ghost number_of = { number };

    ghost place_of = { place };

    ghost words_of = { words };

    fn refusal(&self) -> Refusal {
        match self {
            SourceFault::Shape => Refusal::new(
                3,
                "the side, the modulus or the numbers do not make a matrix source",
            ),
            SourceFault::NotTurned => Refusal::new(6, "a column is read before any turn"),
            SourceFault::Row => Refusal::new(8, "a row is out of range"),
            SourceFault::Column => Refusal::new(8, "a column is out of range"),
            SourceFault::UnknownSeed => Refusal::new(14, "the source does not know the seed"),
        }
    }
}

impl fmt::Display for SourceFault {
    ghost output = { λ fault. Some (words fault) };

    fn fmt<W: fmt::Write>(&self, f: &mut fmt::Formatter<W>) -> fmt::Result {
        f.write_str(self.words())
    }
}

impl Error for SourceFault {}
