// How AKCN is built, and what it answers.
ghost use Rattle.std.specs.Prelude.{◌≡◌};
ghost use Rattle.consensus.specs.Meanings.{akcn_of};
ghost use Rattle.consensus.specs.Replies.{means, akcn_built, Built};
ghost use Rattle.consensus.specs.Rules.{akcn_bound};
ghost use Rattle.consensus.specs.AkcnValues;

use crate::akcn::Akcn;
use crate::arithmetic::{floor_mod, round};
use crate::fault::RuleFault;
use crate::numbers::Numbers;
use crate::rule::Rule;

impl Akcn {
    // The rule with modulus q, m digits and g hints.
    pub fn new(q: u32, m: u32, g: u32) -> Result<Akcn, RuleFault>
        ensures answer { means akcn_of result ≡ akcn_built q m g }
        ensures exactly { Built q m g (akcn_bound q m g) (means akcn_of result) }
    {
        let numbers = Numbers::new(q, m, g, m)?;
        Ok(Akcn { numbers })
    }
}

impl Rule for Akcn {
    ghost meaning = { akcn_of };

    ghost lawful = { λ r. AkcnValues.lawful r };

    fn modulus(&self) -> u32 {
        self.numbers.modulus
    }

    fn digits(&self) -> u32 {
        self.numbers.digits
    }

    fn hints(&self) -> u32 {
        self.numbers.hints
    }

    fn distance(&self) -> u32 {
        self.numbers.distance
    }

    fn draws(&self) -> u32 {
        self.numbers.draws
    }

    fn numbers(&self) -> Numbers {
        self.numbers
    }

    fn settle(&self, sum: u16, draw: u16) -> Result<(u16, u16), RuleFault> {
        self.numbers.check_settling(sum, draw)?;
        let Numbers {
            modulus: q,
            digits: m,
            hints: g,
            ..
        } = self.numbers;
        let shift = round(q * u32::from(draw), m);
        let hint = round(g * (u32::from(sum) + shift), q) % g;
        // Proved to fit: `try_from` would make an error that never comes.
        Ok((draw, hint as u16))
    }

    #[tactic(auto, using(crate::specs::AkcnAgreement::akcn_recover_is))]
    fn recover(&self, sum: u16, hint: u16) -> Result<u16, RuleFault> {
        self.numbers.check_recovering(sum, hint)?;
        let q = u64::from(self.numbers.modulus);
        let m = u64::from(self.numbers.digits);
        let g = u64::from(self.numbers.hints);
        let up = 2 * m * u64::from(hint) * q + g * q;
        let down = 2 * m * g * u64::from(sum);
        // Proved to fit, as above.
        Ok(floor_mod(up, down, 2 * g * q, self.numbers.digits) as u16)
    }
}
