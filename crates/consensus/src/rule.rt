// What every consensus rule offers and owes.
ghost use Rattle.std.specs.Prelude.{◌≡◌};
ghost use Rattle.consensus.specs.Consensus.{Consensus};
ghost use Rattle.consensus.specs.Laws.{Lawful};
ghost use Rattle.consensus.specs.Numbers.{numbers_of};
ghost use Rattle.consensus.specs.Replies.{settle_reply, recover_reply};

use crate::fault::RuleFault;
use crate::numbers::Numbers;

pub trait Rule {
    ghost meaning: { Self → Consensus };

    // q: sums run from 0 to q - 1.
    fn modulus(&self) -> u32
        ensures { result ≡ (meaning self.now).modulus };

    // m: digits run from 0 to m - 1.
    fn digits(&self) -> u32
        ensures { result ≡ (meaning self.now).digits };

    // g: hints run from 0 to g - 1.
    fn hints(&self) -> u32
        ensures { result ≡ (meaning self.now).hints };

    // d: sums that lie at most so far apart around q come to one digit.
    fn distance(&self) -> u32
        ensures { result ≡ (meaning self.now).distance };

    // C: draws run from 0 to C - 1.
    fn draws(&self) -> u32
        ensures { result ≡ (meaning self.now).draws };

    // The five of them together.
    fn numbers(&self) -> Numbers
        ensures { result ≡ numbers_of (meaning self.now) }
    {
        Numbers {
            modulus: self.modulus(),
            digits: self.digits(),
            hints: self.hints(),
            distance: self.distance(),
            draws: self.draws(),
        }
    }

    // The digit of a sum, and the hint for the other side. A sum out of range is refused first, then a draw.
    fn settle(&self, sum: u16, draw: u16) -> Result<(u16, u16), RuleFault>
        ensures { result ≡ settle_reply (meaning self.now) sum draw };

    // The digit that a near sum settled on, from its hint. A sum or a hint out of range is refused.
    fn recover(&self, sum: u16, hint: u16) -> Result<u16, RuleFault>
        ensures { result ≡ recover_reply (meaning self.now) sum hint };

    ghost lawful: { (r : Self) → Lawful (meaning r) };
}
