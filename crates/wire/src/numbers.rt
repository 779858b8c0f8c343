// Numbers where they stand in a message.
ghost use Rattle.std.specs.Prelude.{◌≡◌, ◌^◌, ◌<◌, length, position, nat_le};
ghost use Rattle.lwe.specs.Matrices.{padded};
ghost use Rattle.wire.specs.Bytes.{numbers_of};
ghost use Rattle.wire.specs.Faults.{Verdict};
ghost use Rattle.wire.specs.Messages.{over, Below};
ghost use Rattle.wire.specs.Views.{list, pair_number};

use crate::fault::WireFault;

// Each two bytes are a number.
#[derive(Clone, Copy)]
pub struct Numbers<'a> {
    pairs: &'a [[u8; 2]],
}

impl<'a> Numbers<'a> {
    // An odd byte at the end is no number.
    pub(crate) fn new(bytes: &'a [u8]) -> Numbers<'a>
        ensures { list result ≡ numbers_of bytes.now }
    {
        let (pairs, _) = bytes.as_chunks();
        Numbers { pairs }
    }

    pub(crate) fn count(&self) -> usize
        ensures all { result ≡ length (list self.now) }
        ensures small { result < 2 ^ 63 }
    {
        self.pairs.len()
    }

    // The first N numbers, with zeros behind them where there are fewer.
    pub fn to_array<const N: usize>(&self) -> [u16; N]
        ensures { result ≡ padded 0 N (list self.now) }
    {
        let mut array = [0; N];
        let pairs = &self.pairs[..self.count().min(N)];
        // Not `array::from_fn`, which takes three times as long; what is written in a zip is not known to a proof.
        for (i, pair) in pairs.iter().enumerate() {
            array[i] = u16::from_be_bytes(*pair);
        }
        array
    }

    // The index of the first that is not below `limit`.
    fn first_over(&self, limit: u32) -> Option<usize>
        ensures { result ≡ position (λ pair. nat_le limit (pair_number pair)) self.now.pairs.now }
    {
        self.pairs
            .iter()
            .position(|pair| u32::from(u16::from_be_bytes(*pair)) >= limit)
    }

    // Whether each is below `limit`. The first counts as number `from`.
    pub(crate) fn check(&self, limit: u32, from: usize) -> Result<(), WireFault>
        requires { from < 2 ^ 63 }
        ensures { Verdict (over limit from (list self.now)) result (λ _. Below limit (list self.now)) }
    {
        match self.first_over(limit) {
            Some(i) => Err(WireFault::Entry { index: from + i }),
            None => Ok(()),
        }
    }
}
