// The sizes of an exchange, each within its limits.
ghost use Rattle.std.specs.Prelude.{◌*◌, ◌≤◌};

mod building;

#[derive(Clone, Copy)]
pub struct Sizes {
    // The modulus: entries of the public matrix, of what is sent and of the sums are below it.
    pub q: u32,
    // The side of the public matrix.
    pub n: usize,
    // The columns of the opening end's matrices.
    pub la: usize,
    // The columns of the answering end's matrices.
    pub lb: usize,
    ghost modulus: { (2 ≤ q) × (q ≤ 32768) },
    ghost side: { (1 ≤ n) × (n ≤ 1024) },
    ghost opening: { (1 ≤ la) × (la ≤ 8) },
    ghost answering: { (1 ≤ lb) × (lb ≤ 8) },
    // What follows for the counts of entries, so that every later sum is linear.
    ghost offered: { n * la ≤ 8192 },
    ghost answered: { n * lb ≤ 8192 },
    ghost places: { la * lb ≤ 64 },
}
