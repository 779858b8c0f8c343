// Reads messages: first the header, then, in a call of its own, the numbers.
ghost use Rattle.std.specs.Prelude.{◌≡◌, ℕ, length};
ghost use Rattle.lwe.specs.Limits.{dimensions};
ghost use Rattle.wire.specs.Bytes.{number_at};
ghost use Rattle.wire.specs.Faults.{Verdict};
ghost use Rattle.wire.specs.Headers.{message_length, header_fault};
ghost use Rattle.wire.specs.Views.{offered, answered, Read, Checked};

use crate::fault::WireFault;
use crate::header::Header;
use crate::kind::Kind;
use crate::numbers::Numbers;
use lwe::sizes::Sizes;

// An offer, with its entries where they stand.
#[derive(Clone, Copy)]
pub struct Offer<'a> {
    // The session's.
    pub number: u16,
    pub seed: [u8; 32],
    pub entries: Numbers<'a>,
}

// An answer, with its entries and hints where they stand.
#[derive(Clone, Copy)]
pub struct Answer<'a> {
    // The session's.
    pub number: u16,
    pub entries: Numbers<'a>,
    pub hints: Numbers<'a>,
}

// The session's number of a message whose length and header are those due. Sizes and kind stay two parameters, here and
// elsewhere: a struct of both would be made at each call for that call alone.
fn read_header(sizes: &Sizes, kind: Kind, message: &[u8]) -> Result<u16, WireFault>
    ensures { Verdict (header_fault (dimensions sizes.now) kind message.now) result (λ number. (number ≡ number_at message.now 2) × (length message.now ≡ message_length (dimensions sizes.now) kind)) }
{
    let got = Header::read(message)?;
    let due = Header::due(sizes, kind, got.number);
    got.check(&due, message.len())?;
    Ok(got.number)
}

// An offer of these sizes, whatever its entries.
pub fn read_offer<'a>(sizes: &Sizes, message: &'a [u8]) -> Result<Offer<'a>, WireFault>
    ensures { Read (dimensions sizes.now) Kind.Offer message.now offered result }
{
    let number = read_header(sizes, Kind::Offer, message)?;
    let (seed, entries) = message[16..].split_first_chunk().unwrap();
    Ok(Offer {
        number,
        seed: *seed,
        entries: Numbers::new(entries),
    })
}

// An answer of these sizes, whatever its entries and hints.
pub fn read_answer<'a>(sizes: &Sizes, message: &'a [u8]) -> Result<Answer<'a>, WireFault>
    ensures { Read (dimensions sizes.now) Kind.Answer message.now answered result }
{
    let number = read_header(sizes, Kind::Answer, message)?;
    let (entries, hints) = message[16..].split_at(2 * (sizes.n * sizes.lb));
    Ok(Answer {
        number,
        entries: Numbers::new(entries),
        hints: Numbers::new(hints),
    })
}

impl Offer<'_> {
    // Whether each entry is below `q`. An offer has no hints, so that their limit does not matter.
    pub fn check(&self, q: u32) -> Result<(), WireFault>
        ensures { (g : ℕ) → Checked q g (offered self.now) result }
    {
        self.entries.check(q, 0)
    }
}

impl Answer<'_> {
    // Whether each entry is below `q` and each hint below `g`.
    pub fn check(&self, q: u32, g: u32) -> Result<(), WireFault>
        ensures { Checked q g (answered self.now) result }
    {
        self.entries.check(q, 0)?;
        self.hints.check(g, self.entries.count())
    }
}
