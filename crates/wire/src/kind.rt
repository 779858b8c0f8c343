// The two kinds of messages.
ghost use Rattle.std.specs.Prelude.{◌≡◌};
ghost use Rattle.lwe.specs.Limits.{dimensions};
ghost use Rattle.wire.specs.Headers.{kind_number, message_length};

use lwe::sizes::Sizes;

#[derive(Clone, Copy, PartialEq, Eq, Debug)]
pub enum Kind {
    // A seed and the entries of Y1.
    Offer,
    // The entries of Y2 and the hints.
    Answer,
}

// The number that stands for a kind in a message.
impl From<Kind> for u16 {
    ghost from_gives = { λ kind r. r ≡ kind_number kind };

    fn from(kind: Kind) -> u16 {
        match kind {
            Kind::Offer => 1,
            Kind::Answer => 2,
        }
    }
}

impl Kind {
    // How many bytes a message of this kind has.
    pub fn length(self, sizes: &Sizes) -> usize
        ensures { result ≡ message_length (dimensions sizes.now) self }
    {
        match self {
            Kind::Offer => 48 + 2 * (sizes.n * sizes.la),
            Kind::Answer => 16 + 2 * (sizes.n * sizes.lb) + 2 * (sizes.la * sizes.lb),
        }
    }
}
