// The calls of an answering end.
ghost use Rattle.std.specs.Prelude.{◌≡◌};
ghost use Rattle.ends.specs.Accepting.{AcceptsOffer};
ghost use Rattle.ends.specs.AnsweringCalls.{AnswersAgain, Hears, hear_checks};
ghost use Rattle.ends.specs.Ends.{Kept, setting};
ghost use Rattle.ends.specs.Refusals.{unless};

use crate::answering::{AnsweringPhase, AnsweringState};
use crate::end::AnsweringEnd;
use crate::fault::EndFault;
use crate::wipe::Wipe;
use consensus::rule::Rule;
use matrix::source::MatrixSource;
use std::cmp::Ordering;
use wire::fault::WireFault;
use wire::kind::Kind;
use wire::reading::{Offer, read_offer};
use wire::writing::write_answer;

impl<'r, R: Rule, S: MatrixSource> AnsweringEnd<'r, R, S> {
    // The offer of a new session, or the first refusal of it.
    fn accept<'a>(&self, message: &'a [u8]) -> Result<Offer<'a>, EndFault>
        ensures { AcceptsOffer (setting R.Rule.meaning S.MatrixSource.meaning self.now.works) self.now.state message.now result }
    {
        let sizes = self.works.sizes();
        let offer = read_offer(&sizes, message)?;
        match offer.number.cmp(&self.state.number) {
            Ordering::Less => return Err(EndFault::Number),
            Ordering::Equal => return Err(EndFault::Again),
            Ordering::Greater => {}
        }
        offer.check(sizes.q)?;
        Ok(offer)
    }

    // Whether the buffer and the words are as hearing needs them.
    fn prepare(&self, words: &[u16], room: usize) -> Result<(), EndFault>
        ensures { result ≡ unless (hear_checks (setting R.Rule.meaning S.MatrixSource.meaning self.now.works) words.now room) tt }
    {
        if room < Kind::Answer.length(&self.works.sizes()) {
            return Err(EndFault::Message(WireFault::Room));
        }
        self.works.hear_needs().check(words)
    }

    // Hears an offer: draws X2, E2 and Eσ, settles the key, and writes the answer. The words are zero when it ends.
    pub(crate) fn hear(
        &mut self,
        message: &[u8],
        draws: &mut [u16],
        out: &mut [u8],
    ) -> Result<usize, EndFault>
        ensures hears { Hears (setting R.Rule.meaning S.MatrixSource.meaning self.old.works) message.now draws.old draws.new out.old out.new self.old.state self.new.state result }
        ensures kept { Kept S.MatrixSource.meaning self.old self.new result }
    {
        let guard = Wipe(draws);
        let words = &*guard.0;
        let offer = self.accept(message)?;
        self.prepare(words, out.len())?;
        self.works.look_up(&offer.seed)?;
        self.state.hear(&mut self.works, &offer, words);
        let AnsweringState { image, hints, .. } = &self.state;
        Ok(write_answer(&self.works.sizes(), offer.number, image, hints, out).unwrap())
    }

    // Writes the answer once more, while its key is held. It stands apart from `offer_again`, which writes another message of other
    // fields.
    pub(crate) fn answer_again(&self, out: &mut [u8]) -> Result<usize, EndFault>
        ensures { AnswersAgain (setting R.Rule.meaning S.MatrixSource.meaning self.now.works) out.old out.new self.now.state result }
    {
        let AnsweringState {
            phase,
            number,
            image,
            hints,
            ..
        } = &self.state;
        match phase {
            AnsweringPhase::Idle => return Err(EndFault::State),
            AnsweringPhase::Keyed => {}
        }
        let length = write_answer(&self.works.sizes(), *number, image, hints, out)?;
        Ok(length)
    }
}
