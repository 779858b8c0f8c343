// What the steps of an opening end's sessions leave, once nothing is left to refuse.
ghost use Rattle.std.specs.Prelude.{◌≡◌, ℕ, ◌*◌, ◌<◌, true, None, length, slice_index};
ghost use Rattle.ends.specs.Draws.{draw_fault};
ghost use Rattle.ends.specs.Ends.{KeptWorks, setting};
ghost use Rattle.ends.specs.OpeningStates.{blank, forgotten, key_of, opened, keyed};
ghost use Rattle.ends.specs.Settings.{open_needs};

use crate::draws::sample;
use crate::opening::{OpeningPhase, OpeningState};
use crate::places::recover_places;
use crate::session::Session;
use crate::works::Works;
use consensus::rule::Rule;
use lwe::images::opening_image;
use lwe::sums::opening_sum;
use matrix::source::MatrixSource;

impl Session for OpeningState {
    ghost fresh = { blank 0 };

    ghost forgotten = { forgotten };

    ghost key_of = { key_of };

    fn new() -> OpeningState {
        OpeningState {
            phase: OpeningPhase::Idle,
            number: 0,
            seed: [0; 32],
            secret: [0; 8192],
            image: [0; 8192],
            digits: [0; 64],
            noise: [0; 8192],
        }
    }

    fn forget(&mut self) {
        self.phase = OpeningPhase::Idle;
        self.seed.fill(0);
        self.secret.fill(0);
        self.image.fill(0);
        self.digits.fill(0);
        self.noise.fill(0);
    }

    fn key(&self) -> Option<&[u16; 64]> {
        match self.phase {
            OpeningPhase::Idle | OpeningPhase::Waiting => None,
            OpeningPhase::Keyed => Some(&self.digits),
        }
    }
}

impl OpeningState {
    // Opens the session `number`: X1 and E1 are drawn by the words, and Y1 is worked out from them. Number, seed and words come from
    // three places, and meet here alone.
    pub(crate) fn open<R: Rule, S: MatrixSource>(
        &mut self,
        works: &mut Works<'_, R, S>,
        number: u16,
        seed: &[u8; 32],
        words: &[u16],
    )
        requires known { (S.MatrixSource.meaning works.old.source).known seed.now ≡ true }
        requires words { draw_fault (open_needs (setting R.Rule.meaning S.MatrixSource.meaning works.old)) words.now ≡ None }
        ensures state { self.new ≡ opened (setting R.Rule.meaning S.MatrixSource.meaning works.old) number seed.now words.now }
        ensures works { KeptWorks S.MatrixSource.meaning works.old works.new }
    {
        let sizes = works.sizes();
        let (secret, noise) = words.split_at(sizes.n * sizes.la);
        sample(&works.law, secret, &mut self.secret);
        sample(&works.law, noise, &mut self.noise);
        let source = &mut works.source;
        self.image = opening_image(&sizes, source, seed, &self.secret, &self.noise).unwrap();
        self.noise.fill(0);
        self.digits.fill(0);
        self.seed = *seed;
        self.number = number;
        self.phase = OpeningPhase::Waiting;
    }

    // Takes an answer in: each digit is recovered from a sum and its hint.
    pub(crate) fn key_by<R: Rule, S: MatrixSource>(
        &mut self,
        works: &Works<'_, R, S>,
        y2: &[u16; 8192],
        hints: &[u16],
    )
        requires count { length hints.now ≡ works.now.la * works.now.lb }
        requires below { (k : ℕ) → k < length hints.now → slice_index hints.now k < (R.Rule.meaning works.now.rule.now).hints }
        ensures { self.new ≡ keyed (setting R.Rule.meaning S.MatrixSource.meaning works.now) y2.now hints.now self.old }
    {
        let sums = opening_sum(&works.sizes(), &self.secret, y2);
        let sums = &sums[0..works.places()];
        recover_places(works.rule, sums, hints, &mut self.digits);
        self.phase = OpeningPhase::Keyed;
    }
}
