// Numbers in two bytes each, high byte first.
ghost use Rattle.std.specs.Prelude.{◌≡◌, ◌+◌, ◌*◌, ◌≤◌, length};
ghost use Rattle.std.proofs.Math.Seq.{paste};
ghost use Rattle.wire.specs.Bytes.{bytes_of};

// Writes bytes over what stands from `place` on.
pub(crate) fn put_bytes(out: &mut [u8], place: usize, bytes: &[u8])
    requires { place + length bytes.now ≤ length out.old }
    ensures { out.new ≡ paste out.old place bytes.now (length bytes.now) }
{
    let end = place + bytes.len();
    out[place..end].copy_from_slice(bytes);
}

// Writes numbers over what stands from `place` on.
pub(crate) fn put_numbers(out: &mut [u8], place: usize, numbers: &[u16])
    requires { place + 2 * length numbers.now ≤ length out.old }
    ensures { out.new ≡ paste out.old place (bytes_of numbers.now) (2 * length numbers.now) }
{
    for (i, x) in numbers.iter().enumerate() {
        put_bytes(out, place + 2 * i, &x.to_be_bytes());
    }
}
