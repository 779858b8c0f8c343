// How OKCN is built, and what it answers.
ghost use Rattle.std.specs.Prelude.{◌≡◌};
ghost use Rattle.consensus.specs.Meanings.{okcn_of};
ghost use Rattle.consensus.specs.Replies.{means, okcn_built, Built};
ghost use Rattle.consensus.specs.Rules.{okcn_bound};
ghost use Rattle.consensus.specs.OkcnValues;

use crate::arithmetic::{difference_mod, floor_mod, gcd};
use crate::fault::RuleFault;
use crate::numbers::Numbers;
use crate::okcn::Okcn;
use crate::rule::Rule;

impl Okcn {
    // The rule with modulus q, m digits and g hints.
    pub fn new(q: u32, m: u32, g: u32) -> Result<Okcn, RuleFault>
        ensures answer { means okcn_of result ≡ okcn_built q m g }
        ensures exactly { Built q m g (okcn_bound q g) (means okcn_of result) }
    {
        let numbers = Numbers::new(q, m, g, 1)?;
        let draws = m / gcd(q, m);
        Ok(Okcn {
            numbers: Numbers { draws, ..numbers },
        })
    }
}

impl Rule for Okcn {
    ghost meaning = { okcn_of };

    ghost lawful = { λ r. OkcnValues.lawful r };

    fn modulus(&self) -> u32 {
        self.numbers.modulus
    }

    fn digits(&self) -> u32 {
        self.numbers.digits
    }

    fn hints(&self) -> u32 {
        self.numbers.hints
    }

    fn distance(&self) -> u32 {
        self.numbers.distance
    }

    fn draws(&self) -> u32 {
        self.numbers.draws
    }

    fn numbers(&self) -> Numbers {
        self.numbers
    }

    fn settle(&self, sum: u16, draw: u16) -> Result<(u16, u16), RuleFault> {
        self.numbers.check_settling(sum, draw)?;
        let Numbers {
            modulus: q,
            digits: m,
            hints: g,
            draws: c,
            ..
        } = self.numbers;
        let width = c * q / m;
        let point = difference_mod(c * u32::from(sum) + u32::from(draw), (c - 1) / 2, c * q);
        let digit = point / width;
        let hint = point % width * g / width;
        // Proved to fit: `try_from` would make an error that never comes.
        Ok((digit as u16, hint as u16))
    }

    #[tactic(auto, using(crate::specs::OkcnAgreement::okcn_recover_is))]
    fn recover(&self, sum: u16, hint: u16) -> Result<u16, RuleFault> {
        self.numbers.check_recovering(sum, hint)?;
        let q = u64::from(self.numbers.modulus);
        let m = u64::from(self.numbers.digits);
        let g = u64::from(self.numbers.hints);
        let up = 2 * g * m * u64::from(sum) + g * q;
        let down = (2 * u64::from(hint) + 1) * q;
        // Proved to fit, as above.
        Ok(floor_mod(up, down, 2 * g * q, self.numbers.digits) as u16)
    }
}
