// How it is put together, and what the calls of an end ask of it.
ghost use Rattle.std.specs.Prelude.{◌≡◌, ◌*◌, Some, None, MatchResult, OnErr};
ghost use Rattle.lwe.specs.Limits.{Holds};
ghost use Rattle.ends.specs.Calls.{seed_fault};
ghost use Rattle.ends.specs.Ends.{KeptWorks, MadeOf, new_fault, setting};
ghost use Rattle.ends.specs.Refusals.{unless};
ghost use Rattle.ends.specs.Settings.{hear_needs, open_needs};

use crate::draws::WordsNeeded;
use crate::fault::EndFault;
use crate::works::Works;
use consensus::rule::Rule;
use lwe::sizes::Sizes;
use matrix::source::MatrixSource;
use noise::law::NoiseLaw;

impl<'r, R: Rule, S: MatrixSource> Works<'r, R, S> {
    // Columns or a law outside their limits are refused, then a rule and a source of two moduli. The five are what a caller
    // chooses, each by itself; the law by its number, as the refusal of an unknown one is part of it.
    pub(crate) fn new(
        rule: &'r R,
        source: S,
        la: usize,
        lb: usize,
        law: u8,
    ) -> Result<Works<'r, R, S>, EndFault>
    where
        S: Drop,
        ensures { MatchResult result
            (λ w. (new_fault (R.Rule.meaning rule.now) (S.MatrixSource.meaning source) la lb law ≡ None) × MadeOf rule.now source la lb law w)
            (λ fault. new_fault (R.Rule.meaning rule.now) (S.MatrixSource.meaning source) la lb law ≡ Some fault) }
    {
        let law = NoiseLaw::try_from(law).or(Err(EndFault::Settings))?;
        if la < 1 || la > 8 || lb < 1 || lb > 8 {
            return Err(EndFault::Settings);
        }
        if rule.modulus() != source.modulus() {
            return Err(EndFault::Moduli);
        }
        Ok(Works {
            rule,
            source,
            la,
            lb,
            law,
        })
    }

    // Whether the source knows the seed. It is turned to row 0 for that.
    pub(crate) fn look_up(&mut self, seed: &[u8; 32]) -> Result<(), EndFault>
        ensures answer { result ≡ unless (seed_fault (S.MatrixSource.meaning self.old.source) seed.now) tt }
        ensures kept { KeptWorks S.MatrixSource.meaning self.old self.new }
        ensures refused { OnErr result (self.new ≡ self.old) }
    {
        Ok(self.source.turn(seed, 0)?)
    }

    // The sizes of the exchange.
    pub(crate) fn sizes(&self) -> Sizes
        ensures { Holds (R.Rule.meaning self.now.rule.now).modulus (S.MatrixSource.meaning self.now.source).side self.now.la self.now.lb result }
    {
        Sizes {
            q: self.rule.modulus(),
            n: self.source.side(),
            la: self.la,
            lb: self.lb,
        }
    }

    // How many digits the key has.
    pub(crate) fn places(&self) -> usize
        ensures { result ≡ self.now.la * self.now.lb }
    {
        self.la * self.lb
    }

    // The words that opening takes.
    pub(crate) fn open_needs(&self) -> WordsNeeded
        ensures { result ≡ open_needs (setting R.Rule.meaning S.MatrixSource.meaning self.now) }
    {
        let Sizes { n, la, .. } = self.sizes();
        WordsNeeded {
            noise: 2 * (n * la),
            noise_limit: self.law.word_limit(),
            draws: 0,
            draw_limit: 0,
        }
    }

    // The words that hearing takes.
    pub(crate) fn hear_needs(&self) -> WordsNeeded
        ensures { result ≡ hear_needs (setting R.Rule.meaning S.MatrixSource.meaning self.now) }
    {
        let Sizes { n, la, lb, .. } = self.sizes();
        WordsNeeded {
            noise: n * lb + (n * lb + la * lb),
            noise_limit: self.law.word_limit(),
            draws: la * lb,
            draw_limit: self.rule.draws(),
        }
    }
}
