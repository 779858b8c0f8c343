// How sizes are built.
ghost use Rattle.std.specs.Prelude.{◌≡◌, MatchResult};
ghost use Rattle.lwe.specs.Limits.{Limits, Holds};

use crate::fault::LweFault;
use crate::sizes::Sizes;

impl Sizes {
    // The sizes, refused where one is outside its limits.
    pub fn new(q: u32, n: usize, la: usize, lb: usize) -> Result<Sizes, LweFault>
        ensures { MatchResult result (Holds q n la lb) (λ fault. (fault ≡ LweFault.Sizes) × (Limits q n la lb → ⊥)) }
    {
        if q < 2 || q > 32768 || n < 1 || n > 1024 {
            return Err(LweFault::Sizes);
        }
        if la < 1 || la > 8 || lb < 1 || lb > 8 {
            return Err(LweFault::Sizes);
        }
        Ok(Sizes { q, n, la, lb })
    }
}
