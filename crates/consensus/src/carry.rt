// One digit from a side that settles to a side that recovers, over any rule.
ghost use Rattle.std.specs.Prelude.{◌≡◌, ◌≤◌, IfOk};
ghost use Rattle.consensus.specs.Carried.{carry_reply};

use crate::arithmetic::apart;
use crate::fault::RuleFault;
use crate::rule::Rule;

// The digit on both sides, the hint between them, and how far the sums lie apart.
#[derive(Clone, Copy)]
pub struct Carried {
    // What the first side settled.
    pub digit: u16,
    pub hint: u16,
    // What the other side recovered from the hint.
    pub recovered: u16,
    // The distance of the two sums around the modulus.
    pub apart: u32,
}

// Settles `sum` with `draw`, and recovers from `second` with the hint.
pub fn carry<R: Rule>(rule: &R, sum: u16, draw: u16, second: u16) -> Result<Carried, RuleFault>
    ensures answer { result ≡ carry_reply (R.meaning rule.now) sum draw second }
    ensures agrees { IfOk result (λ c. c.apart ≤ (R.meaning rule.now).distance → c.recovered ≡ c.digit) }
{
    let (digit, hint) = rule.settle(sum, draw)?;
    let recovered = rule.recover(second, hint)?;
    let apart = apart(rule.modulus(), u32::from(sum), u32::from(second));
    Ok(Carried {
        digit,
        hint,
        recovered,
        apart,
    })
}
