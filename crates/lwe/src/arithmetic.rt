// Remainders, and the distance around the modulus.
ghost use Rattle.std.specs.Prelude.{◌≡◌, ◌^◌, ◌≤◌, ◌+ℤ◌, unsigned_abs};
ghost use Rattle.consensus.specs.Arithmetic.{around, residue};

use crate::sizes::Sizes;

impl Sizes {
    // `z` mod q. The cast loses nothing, as is proved; `try_from` would test that again at each entry.
    pub(crate) fn modulo(&self, z: i64) -> u16
        ensures { result ≡ residue z self.now.q }
    {
        z.rem_euclid(i64::from(self.q)) as u16
    }

    // `z` with its noise, mod q.
    pub(crate) fn noisy(&self, z: i64, noise: i16) -> u16
        requires { unsigned_abs z ≤ 2 ^ 62 }
        ensures { result ≡ residue (z +ℤ noise) self.now.q }
    {
        self.modulo(z + i64::from(noise))
    }

    // The distance of `z` around the modulus: the shorter way to a multiple of it.
    pub fn distance(&self, z: i64) -> u32
        ensures { result ≡ around self.now.q z }
    {
        let x = u32::from(self.modulo(z));
        x.min(self.q - x)
    }
}
