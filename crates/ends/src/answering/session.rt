// What the steps of an answering end's sessions leave, once nothing is left to refuse.
ghost use Rattle.std.specs.Prelude.{◌≡◌, ◌≤◌, true, None, length};
ghost use Rattle.wire.specs.Views.{list};
ghost use Rattle.ends.specs.AnsweringStates.{blank, cleared, drawing, forgotten, heard, key_of, rule_draws};
ghost use Rattle.ends.specs.Ends.{KeptWorks, setting};
ghost use Rattle.ends.specs.Draws.{draw_fault};
ghost use Rattle.ends.specs.Settings.{hear_needs};

use crate::answering::{AnsweringPhase, AnsweringState};
use crate::draws::sample;
use crate::places::settle_places;
use crate::session::Session;
use crate::works::Works;
use consensus::rule::Rule;
use lwe::images::answering_image;
use lwe::sizes::Sizes;
use lwe::sums::answering_sum;
use matrix::source::MatrixSource;
use wire::reading::Offer;

impl Session for AnsweringState {
    ghost fresh = { blank 0 };

    ghost forgotten = { forgotten };

    ghost key_of = { key_of };

    fn new() -> AnsweringState {
        AnsweringState {
            phase: AnsweringPhase::Idle,
            number: 0,
            image: [0; 8192],
            hints: [0; 64],
            digits: [0; 64],
            secret: [0; 8192],
            noise: [0; 8192],
            sum_noise: [0; 64],
        }
    }

    fn forget(&mut self) {
        self.phase = AnsweringPhase::Idle;
        self.image.fill(0);
        self.hints.fill(0);
        self.digits.fill(0);
        self.clear();
    }

    fn key(&self) -> Option<&[u16; 64]> {
        match self.phase {
            AnsweringPhase::Idle => None,
            AnsweringPhase::Keyed => Some(&self.digits),
        }
    }
}

impl AnsweringState {
    // Draws X2, E2 and Eσ by the words, and gives the draws of the rule, which stand behind them.
    fn draw<'a, R: Rule, S: MatrixSource>(
        &mut self,
        works: &Works<'_, R, S>,
        words: &'a [u16],
    ) -> &'a [u16]
        requires { draw_fault (hear_needs (setting R.Rule.meaning S.MatrixSource.meaning works.now)) words.now ≡ None }
        ensures state { self.new ≡ drawing (setting R.Rule.meaning S.MatrixSource.meaning works.now) words.now self.old }
        ensures draws { result.now ≡ rule_draws (S.MatrixSource.meaning works.now.source).side works.now.la works.now.lb words.now }
    {
        let Sizes { n, la, lb, .. } = works.sizes();
        let (secret, words) = words.split_at(n * lb);
        let (noise, words) = words.split_at(n * lb);
        let (sum_noise, draws) = words.split_at(la * lb);
        sample(&works.law, secret, &mut self.secret);
        sample(&works.law, noise, &mut self.noise);
        sample(&works.law, sum_noise, &mut self.sum_noise);
        draws
    }

    // Overwrites X2, E2 and Eσ.
    fn clear(&mut self)
        ensures { self.new ≡ cleared self.old }
    {
        self.secret.fill(0);
        self.noise.fill(0);
        self.sum_noise.fill(0);
    }

    // Hears an offer: X2, E2 and Eσ are drawn by the words, Y2 is worked out from them, and each sum is settled with a draw.
    pub(crate) fn hear<R: Rule, S: MatrixSource>(
        &mut self,
        works: &mut Works<'_, R, S>,
        offer: &Offer<'_>,
        words: &[u16],
    )
        requires known { (S.MatrixSource.meaning works.old.source).known offer.now.seed ≡ true }
        requires entries { length (list offer.now.entries) ≤ 8192 }
        requires words { draw_fault (hear_needs (setting R.Rule.meaning S.MatrixSource.meaning works.old)) words.now ≡ None }
        ensures state { self.new ≡ heard (setting R.Rule.meaning S.MatrixSource.meaning works.old) offer.now.number offer.now.seed (list offer.now.entries) words.now }
        ensures works { KeptWorks S.MatrixSource.meaning works.old works.new }
    {
        let sizes = works.sizes();
        let draws = self.draw(works, words);
        let source = &mut works.source;
        self.image = answering_image(
            &sizes,
            source,
            &offer.seed,
            &self.secret,
            &self.noise,
        ).unwrap();
        let y1 = offer.entries.to_array();
        let sums = answering_sum(&sizes, &y1, &self.secret, &self.sum_noise);
        let sums = &sums[0..works.places()];
        settle_places(works.rule, sums, draws, &mut self.digits, &mut self.hints);
        self.clear();
        self.number = offer.number;
        self.phase = AnsweringPhase::Keyed;
    }
}
