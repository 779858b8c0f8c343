// Writes messages.
ghost use Rattle.lwe.specs.Limits.{dimensions};
ghost use Rattle.wire.specs.Messages.{offer, answer, Sized, Written};
ghost use Rattle.wire.specs.Views.{stated};
ghost use Rattle.std.specs.Prelude.{◌*◌, take};

use crate::bytes::{put_bytes, put_numbers};
use crate::fault::WireFault;
use crate::header::Header;
use crate::kind::Kind;
use lwe::sizes::Sizes;

// What a message states. An offer has no hints, and an answer no seed.
#[derive(Clone, Copy)]
struct Parts<'a> {
    kind: Kind,
    // The session's.
    number: u16,
    seed: &'a [u8],
    entries: &'a [u16],
    hints: &'a [u16],
}

impl Parts<'_> {
    // Writes the message at the front of `out`, and says how long it is.
    // Inlined, so that the compiler knows the length too where a caller's sizes are constants: what is then read back is checked up to
    // five times as fast.
    #[inline]
    fn write(&self, sizes: &Sizes, out: &mut [u8]) -> Result<usize, WireFault>
        requires { Sized (dimensions sizes.now) self.now.kind (stated self.now) }
        ensures { Written (dimensions sizes.now) self.now.kind (stated self.now) out.old out.new result }
    {
        let length = self.kind.length(sizes);
        if out.len() < length {
            return Err(WireFault::Room);
        }
        let header = Header::due(sizes, self.kind, self.number);
        let body = 16 + self.seed.len();
        put_numbers(out, 0, &header.fields());
        put_bytes(out, 16, self.seed);
        put_numbers(out, body, self.entries);
        put_numbers(out, body + 2 * self.entries.len(), self.hints);
        Ok(length)
    }
}

// Writes an offer at the front of `out`, and says how long it is. The first n * la numbers of `y1` are its entries.
// Five parameters, here and below: a struct of what is written would be made for this call and taken apart in it.
pub fn write_offer(
    sizes: &Sizes,
    number: u16,
    seed: &[u8; 32],
    y1: &[u16; 8192],
    out: &mut [u8],
) -> Result<usize, WireFault>
    ensures { Written (dimensions sizes.now) Kind.Offer (offer number seed.now (take (sizes.now.n * sizes.now.la) y1.now)) out.old out.new result }
{
    let parts = Parts {
        kind: Kind::Offer,
        number,
        seed,
        entries: &y1[..sizes.n * sizes.la],
        hints: &[],
    };
    parts.write(sizes, out)
}

// Writes an answer at the front of `out`, and says how long it is. The first n * lb numbers of `y2` are its entries,
// and the first la * lb of `hints` its hints.
pub fn write_answer(
    sizes: &Sizes,
    number: u16,
    y2: &[u16; 8192],
    hints: &[u16; 64],
    out: &mut [u8],
) -> Result<usize, WireFault>
    ensures { Written (dimensions sizes.now) Kind.Answer (answer number (take (sizes.now.n * sizes.now.lb) y2.now) (take (sizes.now.la * sizes.now.lb) hints.now)) out.old out.new result }
{
    let parts = Parts {
        kind: Kind::Answer,
        number,
        seed: &[],
        entries: &y2[..sizes.n * sizes.lb],
        hints: &hints[..sizes.la * sizes.lb],
    };
    parts.write(sizes, out)
}
