// Why a rule refused a call.
ghost use Rattle.std.specs.Prelude.{Some};
ghost use Rattle.consensus.specs.Replies.{number, place, words};

use refusal::{Fault, Refusal};
use std::error::Error;
use std::fmt;

#[derive(Clone, Copy, PartialEq, Eq, Debug)]
pub enum RuleFault {
    // The numbers of a rule are outside their limits.
    Limits,
    // No distance exists for the numbers of a rule.
    Distance,
    // A draw is out of range.
    Draw,
    // A sum or a hint is out of range.
    Range,
}

// A rule's refusals all stand at place 0.
impl Fault for RuleFault {
    ghost number_of = { number };

    ghost place_of = { place };

    ghost words_of = { words };

    fn refusal(&self) -> Refusal {
        match self {
            RuleFault::Limits => {
                Refusal::new(1, "the numbers of a rule are outside their limits")
            }
            RuleFault::Distance => Refusal::new(2, "no distance exists for the numbers of a rule"),
            RuleFault::Draw => Refusal::new(5, "a draw is out of range"),
            RuleFault::Range => Refusal::new(8, "a sum or a hint is out of range"),
        }
    }
}

impl fmt::Display for RuleFault {
    ghost output = { λ fault. Some (words fault) };

    fn fmt<W: fmt::Write>(&self, f: &mut fmt::Formatter<W>) -> fmt::Result {
        f.write_str(self.words())
    }
}

impl Error for RuleFault {}
