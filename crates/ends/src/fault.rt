// Why an end refuses to be built, or refuses a call.
ghost use Rattle.std.specs.Prelude.{◌≡◌, Some};
ghost use Rattle.ends.specs.Faults.{number, place, words};
ghost use Rattle.ends.specs.declared.fault.EndFault.TheVariants.{Message, Source};

use matrix::fault::SourceFault;
use refusal::{Fault, Refusal};
use std::error::Error;
use std::fmt;
use wire::fault::WireFault;

#[derive(Clone, Copy, PartialEq, Eq, Debug)]
pub enum EndFault {
    // The columns or the law are outside their limits.
    Settings,
    // The rule and the source differ in their modulus.
    Moduli,
    // There are not as many draws as are needed.
    DrawCount { needed: usize },
    // A draw is out of range.
    Draw { index: usize },
    // The state of the end does not allow the call.
    State,
    // The last session number is the largest.
    Spent,
    // A place of the key is out of range.
    Place,
    // The message is of another session, or of an older one.
    Number,
    // The session was answered or keyed already.
    Again,
    // A message is not right, or the buffer is too short for one.
    Message(WireFault),
    // The source refuses.
    Source(SourceFault),
}

impl Fault for EndFault {
    ghost number_of = { number };

    ghost place_of = { place };

    ghost words_of = { words };

    fn refusal(&self) -> Refusal {
        match self {
            EndFault::Settings => Refusal::new(
                1,
                "the columns or the law of an end are outside their limits",
            ),
            EndFault::Moduli => Refusal::new(3, "the rule and the source differ in their modulus"),
            EndFault::DrawCount { needed } => {
                Refusal::at(5, *needed, "the count of draws is wrong")
            }
            EndFault::Draw { index } => Refusal::at(5, *index, "a draw is out of range"),
            EndFault::State => Refusal::new(6, "the state of the end does not allow the call"),
            EndFault::Spent => Refusal::new(7, "the last session number is the largest"),
            EndFault::Place => Refusal::new(8, "a place of the key is out of range"),
            EndFault::Number => Refusal::new(11, "the message is of another session"),
            EndFault::Again => Refusal::new(12, "the session was answered or keyed already"),
            EndFault::Message(fault) => fault.refusal(),
            EndFault::Source(fault) => fault.refusal(),
        }
    }
}

// Both by hand: a derived one does not say which fault it makes.
impl From<WireFault> for EndFault {
    ghost from_gives = { λ fault r. r ≡ Message fault };

    fn from(fault: WireFault) -> EndFault {
        EndFault::Message(fault)
    }
}

impl From<SourceFault> for EndFault {
    ghost from_gives = { λ fault r. r ≡ Source fault };

    fn from(fault: SourceFault) -> EndFault {
        EndFault::Source(fault)
    }
}

impl fmt::Display for EndFault {
    ghost output = { λ fault. Some (words fault) };

    fn fmt<W: fmt::Write>(&self, f: &mut fmt::Formatter<W>) -> fmt::Result {
        f.write_str(self.words())
    }
}

impl Error for EndFault {}
