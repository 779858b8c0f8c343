// The calls of an opening end.
ghost use Rattle.std.specs.Prelude.{◌≡◌, ◌+◌};
ghost use Rattle.ends.specs.Accepting.{Accepts};
ghost use Rattle.ends.specs.Ends.{Kept, setting};
ghost use Rattle.ends.specs.OpeningCalls.{OffersAgain, Opens, open_checks, Takes};
ghost use Rattle.ends.specs.Refusals.{unless};

use crate::end::OpeningEnd;
use crate::fault::EndFault;
use crate::opening::{OpeningPhase, OpeningState};
use crate::wipe::Wipe;
use consensus::rule::Rule;
use matrix::source::MatrixSource;
use wire::fault::WireFault;
use wire::kind::Kind;
use wire::reading::{Answer, read_answer};
use wire::writing::write_offer;

impl<'r, R: Rule, S: MatrixSource> OpeningEnd<'r, R, S> {
    // The number of the next session, or the first refusal before that of the seed.
    fn next(&self, words: &[u16], room: usize) -> Result<u16, EndFault>
        ensures { result ≡ unless (open_checks (setting R.Rule.meaning S.MatrixSource.meaning self.now.works) self.now.state words.now room) (self.now.state.number + 1) }
    {
        let number = self.state.number.checked_add(1).ok_or(EndFault::Spent)?;
        if room < Kind::Offer.length(&self.works.sizes()) {
            return Err(EndFault::Message(WireFault::Room));
        }
        self.works.open_needs().check(words)?;
        Ok(number)
    }

    // Opens a session: draws X1 and E1, and writes the offer. The words are zero when it ends.
    pub(crate) fn open(
        &mut self,
        seed: &[u8; 32],
        draws: &mut [u16],
        out: &mut [u8],
    ) -> Result<usize, EndFault>
        ensures opens { Opens (setting R.Rule.meaning S.MatrixSource.meaning self.old.works) seed.now draws.old draws.new out.old out.new self.old.state self.new.state result }
        ensures kept { Kept S.MatrixSource.meaning self.old self.new result }
    {
        let guard = Wipe(draws);
        let words = &*guard.0;
        let number = self.next(words, out.len())?;
        self.works.look_up(seed)?;
        self.state.open(&mut self.works, number, seed, words);
        Ok(write_offer(&self.works.sizes(), number, seed, &self.state.image, out).unwrap())
    }

    // Writes the offer once more, while its answer is awaited.
    pub(crate) fn offer_again(&self, out: &mut [u8]) -> Result<usize, EndFault>
        ensures { OffersAgain (setting R.Rule.meaning S.MatrixSource.meaning self.now.works) out.old out.new self.now.state result }
    {
        let OpeningState {
            phase,
            number,
            seed,
            image,
            ..
        } = &self.state;
        match phase {
            OpeningPhase::Idle | OpeningPhase::Keyed => return Err(EndFault::State),
            OpeningPhase::Waiting => {}
        }
        let length = write_offer(&self.works.sizes(), *number, seed, image, out)?;
        Ok(length)
    }

    // The answer to this session, or the first refusal.
    fn accept<'a>(&self, message: &'a [u8]) -> Result<Answer<'a>, EndFault>
        ensures { Accepts (setting R.Rule.meaning S.MatrixSource.meaning self.now.works) self.now.state message.now result }
    {
        match self.state.phase {
            OpeningPhase::Idle => return Err(EndFault::State),
            OpeningPhase::Waiting | OpeningPhase::Keyed => {}
        }
        let sizes = self.works.sizes();
        let answer = read_answer(&sizes, message)?;
        match (self.state.phase, answer.number) {
            (_, number) if number != self.state.number => return Err(EndFault::Number),
            (OpeningPhase::Keyed, _) => return Err(EndFault::Again),
            (OpeningPhase::Idle | OpeningPhase::Waiting, _) => {}
        }
        answer.check(sizes.q, self.works.rule.hints())?;
        Ok(answer)
    }

    // Takes the answer in, and recovers the key. It gives the session's number.
    pub(crate) fn take_answer(&mut self, message: &[u8]) -> Result<u16, EndFault>
        ensures takes { Takes (setting R.Rule.meaning S.MatrixSource.meaning self.old.works) message.now self.old.state self.new.state result }
        ensures kept { Kept S.MatrixSource.meaning self.old self.new result }
    {
        let answer = self.accept(message)?;
        let y2 = answer.entries.to_array();
        let hints: [u16; 64] = answer.hints.to_array();
        let hints = &hints[0..self.works.places()];
        self.state.key_by(&self.works, &y2, hints);
        Ok(answer.number)
    }
}
