// The rows that a seed is expanded to.
ghost use Rattle.std.specs.Prelude.{◌≡◌, ◌≢◌, ℕ, ◌*◌, ◌^◌, ◌≤◌, map, length, take, MatchOption};
ghost use Rattle.std.specs.List.{range_with_len};
ghost use Rattle.matrix.specs.Expansion.{row_message, entry_at, row_entries, expansion, expansion_built};
ghost use Rattle.matrix.specs.Replies.{means};

use crate::fault::SourceFault;
use keccak::sponge::shake128;

// Matrices of n rows of n entries, modulo 2 to the power of `bits`.
#[derive(Clone, Copy)]
pub(crate) struct Shape {
    pub(crate) n: usize,
    pub(crate) bits: u32,
    ghost side: { (1 ≤ n) × (n ≤ 1024) },
    ghost power: { (1 ≤ bits) × (bits ≤ 15) },
}

impl Shape {
    // The shape of the modulus q, one of 2, 4, .., 32,768.
    pub(crate) fn new(n: usize, q: u32) -> Result<Shape, SourceFault>
        ensures { means (λ shape. expansion shape.n (2 ^ shape.bits)) result ≡ expansion_built n q }
    {
        if n < 1 || n > 1024 {
            return Err(SourceFault::Shape);
        }
        let bits = exponent(q).ok_or(SourceFault::Shape)?;
        Ok(Shape { n, bits })
    }

    // The entries of a row's bytes, and then zeros.
    fn entries(&self, bytes: &[u8]) -> [u16; 1024]
        requires { length bytes.now ≡ 2 * self.now.n }
        ensures { take self.now.n result ≡ map (entry_at (2 ^ self.now.bits) bytes.now) (range_with_len 0 self.now.n) }
    {
        let (pairs, _) = bytes.as_chunks::<2>();
        let mut row = [0; 1024];
        for (j, pair) in pairs.iter().enumerate() {
            row[j] = u16::from_le_bytes(*pair) % (1 << self.bits);
        }
        row
    }

    // The entries of row `row` of a seed, and then zeros.
    pub(crate) fn expand(&self, seed: &[u8; 32], row: u16) -> [u16; 1024]
        ensures { take self.now.n result ≡ row_entries self.now.n (2 ^ self.now.bits) seed.now row }
    {
        // of the longest row: there is no heap
        let mut buffer = [0; 2048];
        let bytes = &mut buffer[..2 * self.n];
        shake128(&row_message(seed, row), bytes);
        self.entries(bytes)
    }
}

// The k from 1 to 15 with `q` = 2 ^ k, if any.
fn exponent(q: u32) -> Option<u32>
    ensures { MatchOption result ((k : ℕ) → 1 ≤ k → k ≤ 15 → q ≢ 2 ^ k) (λ k. (1 ≤ k) × (k ≤ 15) × (q ≡ 2 ^ k)) }
{
    (1..16).find(|k| 2u32.pow(*k) == q)
}

// What row `row` is expanded from: its number in two bytes, low byte first, and then the seed.
fn row_message(seed: &[u8; 32], row: u16) -> [u8; 34]
    ensures { result ≡ row_message seed.now row }
{
    let mut message = [0; 34];
    message[..2].copy_from_slice(&row.to_le_bytes());
    message[2..].copy_from_slice(seed);
    message
}
