// The calls that both ends have.
ghost use Rattle.std.specs.Prelude.{◌≡◌};
ghost use Rattle.ends.specs.Calls.{read_reply};
ghost use Rattle.ends.specs.Ends.{Forgets, setting};

use crate::end::End;
use crate::fault::EndFault;
use crate::session::Session;
use crate::works::Works;
use consensus::rule::Rule;
use matrix::source::MatrixSource;

impl<'r, R: Rule, S: MatrixSource, T: Session> End<'r, R, S, T> {
    // An end before its first session.
    pub(crate) fn new(works: Works<'r, R, S>) -> End<'r, R, S, T>
        ensures works { result.works ≡ works.entry }
        ensures state { result.state ≡ T.Session.fresh }
    {
        End {
            works,
            state: T::new(),
        }
    }

    // The digit of a place of the key, counted row by row from 0.
    pub(crate) fn read(&self, place: usize) -> Result<u16, EndFault>
        ensures { result ≡ read_reply (setting R.Rule.meaning S.MatrixSource.meaning self.now.works) (T.Session.key_of self.now.state) place }
    {
        let digits = self.state.key().ok_or(EndFault::State)?;
        if place >= self.works.places() {
            return Err(EndFault::Place);
        }
        Ok(digits[place])
    }

    // Forgets the session, and keeps its number.
    pub(crate) fn forget(&mut self)
        ensures { Forgets (T.Session.forgotten self.old.state) self.old self.new }
    {
        self.state.forget();
    }
}
