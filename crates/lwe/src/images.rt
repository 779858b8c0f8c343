// What the two ends send, worked out from a matrix source row by row.
ghost use Rattle.std.specs.Prelude.{◌≡◌, ℕ, ◌+◌, ◌*◌, ◌^◌, ◌<◌, ◌≤◌, length, pos, ◌+ℤ◌, ◌*ℤ◌, Ok, slice_index, slice_index_or};
ghost use Rattle.consensus.specs.Arithmetic.{residue};
ghost use Rattle.matrix.specs.Replies.{Turn};
ghost use Rattle.lwe.specs.Exchange.{Y1, Y2};
ghost use Rattle.lwe.specs.Images.{Imaged, public_matrix};
ghost use Rattle.lwe.specs.Matrices.{Within, by_rows, padded, plus, reduced, signed, sum, transposed};

use crate::products::{add_scaled, dot};
use crate::sizes::Sizes;
use matrix::fault::SourceFault;
use matrix::source::MatrixSource;

// Turns the source to row `i` of a seed, and takes its first entries into `row`.
fn read_row<S: MatrixSource>(
    source: &mut S,
    seed: &[u8; 32],
    i: usize,
    row: &mut [u16],
) -> Result<(), SourceFault>
    requires { length row.old ≤ (S.MatrixSource.meaning source.old).side }
    ensures turned { Turn S.MatrixSource.meaning S.MatrixSource.turned seed.now i source.old source.new result }
    ensures entries { result ≡ Ok tt → (j : ℕ) → j < length row.old → slice_index row.new j ≡ (S.MatrixSource.meaning source.old).entry seed.now i j }
{
    source.turn(seed, i)?;
    for (j, entry) in row.iter_mut().enumerate() {
        *entry = source.column(j).unwrap();
    }
    Ok(())
}

impl Sizes {
    // Column `c` of a matrix of the opening end.
    fn take_column(&self, x: &[i16; 8192], c: usize, column: &mut [i16])
        requires { (c < self.now.la) × (length column.old ≡ self.now.n) }
        ensures { (r : ℕ) → r < self.now.n → slice_index_or column.new r (pos 0) ≡ signed self.now.la x.now r c }
    {
        for (r, number) in column.iter_mut().enumerate() {
            *number = x[r * self.la + c];
        }
    }

    // The columns of a matrix of the opening end one after another, so that inner products run through memory in order.
    fn columns_of(&self, x: &[i16; 8192]) -> [i16; 8192]
        ensures { (c : ℕ) → c < self.now.la → (r : ℕ) → r < self.now.n → signed self.now.n result c r ≡ signed self.now.la x.now r c }
    {
        let n = self.n;
        let mut columns = [0; 8192];
        // by index: what is written through `chunks_exact_mut` is not known to a proof
        for c in 0..self.la {
            self.take_column(x, c, &mut columns[c * n..c * n + n]);
        }
        columns
    }

    // A row of the public matrix times each column of a secret, with noise. The four meet here alone.
    fn image_row(&self, row: &[u16], columns: &[i16; 8192], noise: &[i16], image: &mut [u16])
        requires { (length row.now ≡ self.now.n) × (length noise.now ≡ self.now.la) × (length image.old ≡ self.now.la) }
        ensures { (c : ℕ) → c < self.now.la → slice_index image.new c ≡ residue (sum self.now.n (λ r. pos (slice_index row.now r) *ℤ signed self.now.n columns.now c r) +ℤ slice_index_or noise.now c (pos 0)) self.now.q }
    {
        let n = self.n;
        for (c, entry) in image.iter_mut().enumerate() {
            let total = dot(row, &columns[c * n..c * n + n]);
            *entry = self.noisy(total, noise[c]);
        }
    }

    // Adds to the sums of the answering end, which lie column by column, `row` times each number of `x`.
    fn add_row(&self, sums: &mut [i64; 8192], row: &[u16], x: &[i16])
        requires lengths { (length row.now ≡ self.now.n) × (length x.now ≡ self.now.lb) }
        requires small { Within (2 ^ 61) sums.old }
        ensures grows { (b : ℕ) → Within b sums.old → Within (b + 2 ^ 32) sums.new }
        ensures value { (c : ℕ) → c < self.now.lb → (j : ℕ) → j < self.now.n → signed self.now.n sums.new c j ≡ signed self.now.n sums.old c j +ℤ pos (slice_index row.now j) *ℤ slice_index_or x.now c (pos 0) }
    {
        let n = self.n;
        for (c, x) in x.iter().enumerate() {
            add_scaled(&mut sums[c * n..c * n + n], row, *x);
        }
    }

    // Those sums with noise, row by row.
    fn noisy_image(&self, sums: &[i64; 8192], noise: &[i16; 8192]) -> [u16; 8192]
        requires { Within (2 ^ 61) sums.now }
        ensures { result ≡ padded 0 8192 (by_rows self.now.n self.now.lb (reduced self.now.q (plus (transposed (signed self.now.n sums.now)) (signed self.now.lb noise.now)))) }
    {
        let Sizes { n, lb: l, .. } = *self;
        let mut image = [0; 8192];
        for (k, entry) in image[..n * l].iter_mut().enumerate() {
            *entry = self.noisy(sums[k % l * n + k / l], noise[k]);
        }
        image
    }
}

// Y1, from the secret and the noise of the opening end. This call and the next walk the rows each by a loop of its own: what a
// closure writes is not known to a proof, and a trait of one step would take more lines than it saves. Secret and noise stay two
// parameters, as they are two fields of an end.
pub fn opening_image<S: MatrixSource>(
    sizes: &Sizes,
    source: &mut S,
    seed: &[u8; 32],
    x1: &[i16; 8192],
    e1: &[i16; 8192],
) -> Result<[u16; 8192], SourceFault>
    ensures { Imaged S.MatrixSource.meaning seed.now sizes.now.n sizes.now.la (Y1 sizes.now.q sizes.now.n (public_matrix (S.MatrixSource.meaning source.old) seed.now) (signed sizes.now.la x1.now) (signed sizes.now.la e1.now)) source.old source.new result }
{
    let Sizes { n, la: l, .. } = *sizes;
    if source.side() != n {
        return Err(SourceFault::Shape);
    }
    let columns = sizes.columns_of(x1);
    let mut buffer = [0; 1024];
    let row = &mut buffer[0..n];
    let mut image = [0; 8192];
    // by index: the source is turned by the row's number, and the image is written by it, since what is written through
    // `chunks_exact_mut` is not known to a proof; a zip for the noise alone is no plainer
    for i in 0..n {
        read_row(source, seed, i, row)?;
        let noise = &e1[i * l..i * l + l];
        sizes.image_row(row, &columns, noise, &mut image[i * l..i * l + l]);
    }
    Ok(image)
}

// Y2, from the secret and the noise of the answering end.
pub fn answering_image<S: MatrixSource>(
    sizes: &Sizes,
    source: &mut S,
    seed: &[u8; 32],
    x2: &[i16; 8192],
    e2: &[i16; 8192],
) -> Result<[u16; 8192], SourceFault>
    ensures { Imaged S.MatrixSource.meaning seed.now sizes.now.n sizes.now.lb (Y2 sizes.now.q sizes.now.n (public_matrix (S.MatrixSource.meaning source.old) seed.now) (signed sizes.now.lb x2.now) (signed sizes.now.lb e2.now)) source.old source.new result }
{
    let Sizes { n, lb: l, .. } = *sizes;
    if source.side() != n {
        return Err(SourceFault::Shape);
    }
    let mut buffer = [0; 1024];
    let row = &mut buffer[0..n];
    let mut sums = [0; 8192];
    // by index: the source is turned by the row's number; a zip for the secret alone is no plainer
    for i in 0..n {
        read_row(source, seed, i, row)?;
        sizes.add_row(&mut sums, row, &x2[i * l..i * l + l]);
    }
    Ok(sizes.noisy_image(&sums, e2))
}
