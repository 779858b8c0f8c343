// The table source: one seed, and the numbers of its matrix, row by row, which are lent.
ghost use Rattle.std.specs.Prelude.{◌≡◌, ◌*◌, ◌<◌, ◌≤◌, length, IfSome};
ghost use Rattle.std.proofs.Props.{props};

mod methods;

#[derive(Clone, Copy)]
pub struct TableSource<'a> {
    n: usize,
    // The modulus.
    q: u16,
    seed: [u8; 32],
    numbers: &'a [u16],
    // The row that it is turned to.
    row: Option<usize>,
    ghost side: { (1 ≤ n) × (n ≤ 1024) },
    ghost modulus: { (2 ≤ q) × (q ≤ 32768) },
    ghost square: { length numbers.now ≡ n * n },
    ghost turned: { IfSome row (λ i. i < n) } by { Prim.hlevel props },
}
