// What every end holds of its sessions, whichever side of them it is on.
ghost use Rattle.std.specs.Prelude.{◌≡◌, List, ℕ, Option};
ghost use Rattle.std.specs.Option.{option_map};

pub(crate) trait Session {
    ghost fresh: { Self };

    ghost forgotten: { Self → Self };

    // The digits, while the key is there.
    ghost key_of: { Self → Option (List ℕ) };

    // Before the first session.
    fn new() -> Self
        ensures { result ≡ fresh };

    // Nothing is left of the session but its number.
    fn forget(&mut self)
        ensures { self.new ≡ forgotten self.old };

    fn key(&self) -> Option<&[u16; 64]>
        ensures { option_map (λ digits. digits.now) result ≡ key_of self.now };
}
