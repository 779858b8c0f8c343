// AKCN, asymmetric key consensus with noise: the settling side chooses the digit by its draw.
ghost use Rattle.consensus.specs.Numbers.{AkcnKept};

use crate::numbers::Numbers;

mod methods;

#[derive(Clone, Copy)]
pub struct Akcn {
    numbers: Numbers,
    ghost kept: { AkcnKept numbers },
}
