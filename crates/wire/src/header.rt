// The header of a message: eight numbers.
ghost use Rattle.std.specs.Prelude.{◌≡◌, None};
ghost use Rattle.lwe.specs.Limits.{dimensions};
ghost use Rattle.wire.specs.Faults.{Verdict, unless};
ghost use Rattle.wire.specs.Headers.{header, fields, header_of, short_fault, field_fault};

use crate::fault::WireFault;
use crate::kind::Kind;
use lwe::sizes::Sizes;

#[derive(Clone, Copy)]
pub struct Header {
    // The number of a kind, or any other where a message is wrong.
    pub kind: u16,
    // The session's.
    pub number: u16,
    pub rows: u16,
    pub columns: u16,
    // Where the two blocks begin.
    pub first: u16,
    pub second: u16,
    pub hints: u16,
    // Of the whole message.
    pub length: u16,
}

impl Header {
    // The header that a message of this kind and session has.
    pub(crate) fn due(sizes: &Sizes, kind: Kind, number: u16) -> Header
        ensures { result ≡ header (dimensions sizes.now) kind number }
    {
        let Sizes { n, la, lb, .. } = *sizes;
        let (columns, second, hints) = match kind {
            Kind::Offer => (la, 48, 0),
            Kind::Answer => (lb, 16 + 2 * (n * lb), la * lb),
        };
        // The check proves that each cast keeps its number; `try_from` would make an error that never comes.
        Header {
            kind: u16::from(kind),
            number,
            rows: n as u16,
            columns: columns as u16,
            first: 16,
            second: second as u16,
            hints: hints as u16,
            length: kind.length(sizes) as u16,
        }
    }

    // Its numbers in their order.
    pub(crate) fn fields(&self) -> [u16; 8]
        ensures { result ≡ fields self.now }
    {
        [
            self.kind,
            self.number,
            self.rows,
            self.columns,
            self.first,
            self.second,
            self.hints,
            self.length,
        ]
    }

    // The header of a message.
    pub(crate) fn read(message: &[u8]) -> Result<Header, WireFault>
        ensures { Verdict (short_fault message.now) result (λ h. h ≡ header_of message.now) }
    {
        // Sixteen names, so that no byte is read by an index.
        let [
            k1,
            k0,
            s1,
            s0,
            r1,
            r0,
            c1,
            c0,
            a1,
            a0,
            b1,
            b0,
            h1,
            h0,
            l1,
            l0,
            ..
        ] = message
        else {
            return Err(WireFault::Short {
                length: message.len(),
            });
        };
        Ok(Header {
            kind: u16::from_be_bytes([*k1, *k0]),
            number: u16::from_be_bytes([*s1, *s0]),
            rows: u16::from_be_bytes([*r1, *r0]),
            columns: u16::from_be_bytes([*c1, *c0]),
            first: u16::from_be_bytes([*a1, *a0]),
            second: u16::from_be_bytes([*b1, *b0]),
            hints: u16::from_be_bytes([*h1, *h0]),
            length: u16::from_be_bytes([*l1, *l0]),
        })
    }

    // Whether this is the header due, in a message of `size` bytes.
    pub(crate) fn check(&self, due: &Header, size: usize) -> Result<(), WireFault>
        ensures { Verdict (field_fault self.now due.now size) result (λ _. size ≡ due.now.length) }
    {
        unless(self.kind == due.kind, WireFault::Field { at: 0 })?;
        unless(self.number != 0, WireFault::Field { at: 2 })?;
        unless(self.rows == due.rows, WireFault::Shape { at: 4 })?;
        unless(self.columns == due.columns, WireFault::Shape { at: 6 })?;
        unless(self.first == due.first, WireFault::Field { at: 8 })?;
        unless(self.second == due.second, WireFault::Field { at: 10 })?;
        unless(self.hints == due.hints, WireFault::Field { at: 12 })?;
        unless(self.length == due.length, WireFault::Field { at: 14 })?;
        unless(size == usize::from(due.length), WireFault::Field { at: 14 })
    }
}

// The fault, unless a field is right. Asked of one field at a time, as a list of them all would be made before its first is looked at.
fn unless(right: bool, fault: WireFault) -> Result<(), WireFault>
    ensures { Verdict (unless right fault None) result (λ _. Unit {0}) }
{
    if right {
        return Ok(());
    }
    Err(fault)
}
