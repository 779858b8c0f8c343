// Why a message or a buffer is refused.
ghost use Rattle.std.specs.Prelude.{Some};
ghost use Rattle.wire.specs.Faults.{number, place, words};

use refusal::{Fault, Refusal};
use std::error::Error;
use std::fmt;

#[derive(Clone, Copy, PartialEq, Eq, Debug)]
pub enum WireFault {
    // The buffer is shorter than the message.
    Room,
    // The message is shorter than a header.
    Short { length: usize },
    // The field at this byte is wrong.
    Field { at: usize },
    // The rows or the columns, at this byte, differ from the sizes.
    Shape { at: usize },
    // An entry or a hint is out of range; hints are counted on from the entries.
    Entry { index: usize },
}

impl Fault for WireFault {
    ghost number_of = { number };

    ghost place_of = { place };

    ghost words_of = { words };

    fn refusal(&self) -> Refusal {
        match *self {
            WireFault::Room => Refusal::new(4, "the buffer is shorter than the message"),
            WireFault::Short { length } => {
                Refusal::at(9, length, "the message is shorter than a header")
            }
            WireFault::Field { at } => Refusal::at(9, at, "a field of the header is wrong"),
            WireFault::Shape { at } => {
                Refusal::at(10, at, "the rows or the columns differ from the sizes")
            }
            WireFault::Entry { index } => {
                Refusal::at(13, index, "an entry or a hint is out of range")
            }
        }
    }
}

impl fmt::Display for WireFault {
    ghost output = { λ fault. Some (words fault) };

    fn fmt<W: fmt::Write>(&self, f: &mut fmt::Formatter<W>) -> fmt::Result {
        f.write_str(self.words())
    }
}

impl Error for WireFault {}
