// What a refusal says: its number, the place of what is wrong, and words for it.
#![tactic(auto)]

ghost use Rattle.std.specs.Prelude.{◌≡◌, ℕ, List, Some};
ghost use Rattle.refusal.specs.Printed.{printed};

use std::fmt;

#[derive(Clone, Copy, Debug)]
pub struct Refusal {
    pub number: u8,
    pub place: usize,
    pub words: &'static str,
}

impl Refusal {
    // A refusal that stands at no place of its own.
    pub fn new(number: u8, words: &'static str) -> Refusal
        ensures number { result.number ≡ number }
        ensures place { result.place ≡ 0 }
        ensures words { result.words.now ≡ words.now }
    {
        Refusal::at(number, 0, words)
    }

    pub fn at(number: u8, place: usize, words: &'static str) -> Refusal
        ensures number { result.number ≡ number }
        ensures place { result.place ≡ place }
        ensures words { result.words.now ≡ words.now }
    {
        Refusal {
            number,
            place,
            words,
        }
    }
}

// The line that the programs print of a refusal.
impl fmt::Display for Refusal {
    ghost output = { λ refusal. Some (printed refusal.number) };

    fn fmt<W: fmt::Write>(&self, f: &mut fmt::Formatter<W>) -> fmt::Result {
        write!(f, "refused {}", self.number)
    }
}

// What is common to the reasons for which the calls of a crate are refused. Each of them writes a `Display` of one line over
// `words`, by hand: one for all is refused, since neither `Display` nor the type would be of this crate, and a derived one does not
// say what it prints.
pub trait Fault {
    ghost number_of: { Self → ℕ };

    ghost place_of: { Self → ℕ };

    ghost words_of: { Self → List ℕ };

    // All that is said of the refusal.
    fn refusal(&self) -> Refusal
        ensures number { result.number ≡ number_of self.now }
        ensures place { result.place ≡ place_of self.now }
        ensures words { result.words.now ≡ words_of self.now };

    final fn number(&self) -> u8
        ensures { result ≡ number_of self.now }
    {
        self.refusal().number
    }

    final fn place(&self) -> usize
        ensures { result ≡ place_of self.now }
    {
        self.refusal().place
    }

    // What is wrong, in words.
    final fn words(&self) -> &'static str
        ensures { result.now ≡ words_of self.now }
    {
        self.refusal().words
    }
}
