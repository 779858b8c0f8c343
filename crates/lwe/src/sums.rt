// The sums that the two ends come to, one for each place.
ghost use Rattle.std.specs.Prelude.{◌≡◌, map};
ghost use Rattle.lwe.specs.Exchange.{Σ1, Σ2};
ghost use Rattle.lwe.specs.Matrices.{by_rows, padded, plain, signed};

use crate::entry::Entry;
use crate::sizes::Sizes;

// At each place, the column of `x` times the column of `y`, with noise.
fn noisy_sums<T: Entry, U: Entry>(
    sizes: &Sizes,
    x: &[T; 8192],
    y: &[U; 8192],
    noise: &[i16; 64],
) -> [u16; 64]
    ensures { result ≡ padded 0 64 (by_rows sizes.now.la sizes.now.lb (Σ2 sizes.now.q sizes.now.n (signed sizes.now.la (map T.value_of x.now)) (signed sizes.now.lb (map U.value_of y.now)) (signed sizes.now.lb noise.now))) }
{
    let mut sums = [0; 64];
    for (k, sum) in sums[..sizes.la * sizes.lb].iter_mut().enumerate() {
        *sum = sizes.noisy(sizes.product(x, y, k), noise[k]);
    }
    sums
}

// Σ1, from the secret of the opening end and what it received.
pub fn opening_sum(sizes: &Sizes, x1: &[i16; 8192], y2: &[u16; 8192]) -> [u16; 64]
    ensures { result ≡ padded 0 64 (by_rows sizes.now.la sizes.now.lb (Σ1 sizes.now.q sizes.now.n (signed sizes.now.la x1.now) (plain sizes.now.lb y2.now))) }
{
    noisy_sums(sizes, x1, y2, &[0; 64])
}

// Σ2, from what the answering end received, its secret and its noise.
pub fn answering_sum(
    sizes: &Sizes,
    y1: &[u16; 8192],
    x2: &[i16; 8192],
    noise: &[i16; 64],
) -> [u16; 64]
    ensures { result ≡ padded 0 64 (by_rows sizes.now.la sizes.now.lb (Σ2 sizes.now.q sizes.now.n (plain sizes.now.la y1.now) (signed sizes.now.lb x2.now) (signed sizes.now.lb noise.now))) }
{
    noisy_sums(sizes, y1, x2, noise)
}
