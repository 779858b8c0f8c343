// OKCN, optimally balanced key consensus with noise: neither side chooses the digit.
ghost use Rattle.consensus.specs.Numbers.{OkcnKept};

use crate::numbers::Numbers;

mod methods;

#[derive(Clone, Copy)]
pub struct Okcn {
    numbers: Numbers,
    ghost kept: { OkcnKept numbers },
}
