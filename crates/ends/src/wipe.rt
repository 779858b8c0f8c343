// A guard over lent draws: whichever way the call ends, they are zero.
ghost use Rattle.std.specs.Prelude.{◌≡◌, length, replicate};

pub(crate) struct Wipe<'a>(pub(crate) &'a mut [u16]);

impl Drop for Wipe<'_> {
    fn drop(self)
        ensures { self.exit.0.now ≡ replicate (length self.entry.0.now) 0 }
    {
        self.0.fill(0);
        let Wipe(_) = self;
    }
}
