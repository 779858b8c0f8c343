// What an end works by: the rule that it is lent, a source of its own, the columns of both ends, and its noise law.
ghost use Rattle.std.specs.Prelude.{◌≤◌};

use noise::law::NoiseLaw;

mod methods;

#[derive(Drop)]
pub struct Works<'r, R, S> {
    pub(crate) rule: &'r R,
    pub(crate) source: S,
    // The columns of the opening end's matrices.
    la: usize,
    // The columns of the answering end's matrices.
    lb: usize,
    pub(crate) law: NoiseLaw,
    ghost opening: { (1 ≤ la) × (la ≤ 8) },
    ghost answering: { (1 ≤ lb) × (lb ≤ 8) },
}
