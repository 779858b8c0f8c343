// The drift of a place: how far the two sums differ, told from what the two ends drew.
ghost use Rattle.std.specs.Prelude.{◌≡◌, IfOk};
ghost use Rattle.lwe.specs.Drifts.{drawn_by, drift_reply, Tells};

use crate::fault::LweFault;
use crate::sizes::Sizes;

// The secrets and the noise of both ends, row by row.
#[derive(Clone, Copy)]
pub struct DrawnValues<'a> {
    pub x1: &'a [i16; 8192],
    pub e1: &'a [i16; 8192],
    pub x2: &'a [i16; 8192],
    pub e2: &'a [i16; 8192],
    // Eσ, which the answering end adds to its sums.
    pub noise: &'a [i16; 64],
}

impl Sizes {
    // The drift of a place, counted row by row from 0. A place out of range is refused.
    pub fn drift(&self, drawn: DrawnValues<'_>, place: usize) -> Result<i64, LweFault>
        ensures answer { result ≡ drift_reply self.now (drawn_by self.now drawn.entry) place }
        ensures tells { IfOk result (λ z. Tells self.now (drawn_by self.now drawn.entry) place z) }
    {
        if place >= self.la * self.lb {
            return Err(LweFault::Place);
        }
        let up = self.product(drawn.x1, drawn.e2, place);
        let down = self.product(drawn.e1, drawn.x2, place);
        Ok(up - down - i64::from(drawn.noise[place]))
    }
}
