// Inner products, and sums that grow with each row.
ghost use Rattle.std.specs.Prelude.{◌≡◌, ℕ, ◌+◌, ◌*◌, ◌/◌, ◌%◌, ◌^◌, ◌<◌, ◌≤◌, length, map, pos, ◌+ℤ◌, ◌*ℤ◌, slice_index, slice_index_or, unsigned_abs};
ghost use Rattle.lwe.specs.Matrices.{Within, signed, sum, times, transposed};

use crate::entry::Entry;
use crate::sizes::Sizes;

impl Sizes {
    // At a place, the column of `x` times the column of `y`.
    pub(crate) fn product<T: Entry, U: Entry>(
        &self,
        x: &[T; 8192],
        y: &[U; 8192],
        place: usize,
    ) -> i64
        requires { place < self.now.la * self.now.lb }
        ensures value { result ≡ times self.now.n (transposed (signed self.now.la (map T.value_of x.now))) (signed self.now.lb (map U.value_of y.now)) (place / self.now.lb) (place % self.now.lb) }
        ensures bound { unsigned_abs result ≤ 2 ^ 42 }
    {
        let i = place / self.lb;
        let j = place % self.lb;
        let rows = x.chunks_exact(self.la).zip(y.chunks_exact(self.lb));
        let mut total = 0;
        for (x, y) in rows.take(self.n) {
            total += x[i].times(y[j]);
        }
        total
    }
}

// The sum of the products of `a` and `x`, place by place.
pub(crate) fn dot(a: &[u16], x: &[i16]) -> i64
    requires { (length x.now ≡ length a.now) × (length a.now ≤ 1024) }
    ensures value { result ≡ sum (length a.now) (λ k. pos (slice_index a.now k) *ℤ slice_index_or x.now k (pos 0)) }
    ensures bound { unsigned_abs result ≤ 2 ^ 42 }
{
    let mut total = 0;
    for (a, x) in a.iter().zip(x) {
        total += a.times(*x);
    }
    total
}

// Adds `row` times `x` to the sums, place by place.
pub(crate) fn add_scaled(sums: &mut [i64], row: &[u16], x: i16)
    requires lengths { length sums.old ≡ length row.now }
    requires small { Within (2 ^ 62) sums.old }
    ensures grows { (b : ℕ) → Within b sums.old → Within (b + 2 ^ 32) sums.new }
    ensures value { (k : ℕ) → k < length sums.old → slice_index_or sums.new k (pos 0) ≡ slice_index_or sums.old k (pos 0) +ℤ pos (slice_index row.now k) *ℤ x }
{
    for (k, sum) in sums.iter_mut().enumerate() {
        *sum += row[k].times(x);
    }
}
