// The places of a key: the answering end settles each of its sums with a draw, the opening end recovers from each of its
// sums and a hint.
ghost use Rattle.std.specs.Prelude.{◌≡◌, ℕ, ◌<◌, ◌≤◌, length, slice_index};
ghost use Rattle.consensus.specs.Consensus.{settle_all, digits_of, hints_of};
ghost use Rattle.lwe.specs.Matrices.{padded};
ghost use Rattle.ends.specs.Keys.{recover_all};

use consensus::rule::Rule;

// Settles a sum with each draw: the digits and the hints, and zeros behind them. The two lists that it writes stand apart in
// the state of an end, so they are two parameters.
pub(crate) fn settle_places<R: Rule>(
    rule: &R,
    sums: &[u16],
    draws: &[u16],
    digits: &mut [u16],
    hints: &mut [u16],
)
    requires counts { (length draws.now ≤ length sums.now) × (length draws.now ≤ length digits.old) × (length draws.now ≤ length hints.old) }
    requires sums { (k : ℕ) → k < length draws.now → slice_index sums.now k < (R.Rule.meaning rule.now).modulus }
    requires draws { (k : ℕ) → k < length draws.now → slice_index draws.now k < (R.Rule.meaning rule.now).draws }
    ensures digits { digits.new ≡ padded 0 (length digits.old) (digits_of (settle_all (R.Rule.meaning rule.now) sums.now draws.now)) }
    ensures hints { hints.new ≡ padded 0 (length hints.old) (hints_of (settle_all (R.Rule.meaning rule.now) sums.now draws.now)) }
{
    digits.fill(0);
    hints.fill(0);
    // by index: of `enumerate` over a `zip` a proof does not know the items
    for (k, draw) in draws.iter().enumerate() {
        let (digit, hint) = rule.settle(sums[k], *draw).unwrap();
        digits[k] = digit;
        hints[k] = hint;
    }
}

// Recovers a digit from each sum and its hint, and leaves zeros behind them.
pub(crate) fn recover_places<R: Rule>(rule: &R, sums: &[u16], hints: &[u16], digits: &mut [u16])
    requires counts { (length hints.now ≡ length sums.now) × (length sums.now ≤ length digits.old) }
    requires sums { (k : ℕ) → k < length sums.now → slice_index sums.now k < (R.Rule.meaning rule.now).modulus }
    requires hints { (k : ℕ) → k < length sums.now → slice_index hints.now k < (R.Rule.meaning rule.now).hints }
    ensures { digits.new ≡ padded 0 (length digits.old) (recover_all (R.Rule.meaning rule.now) sums.now hints.now) }
{
    digits.fill(0);
    // by index, as above
    for (k, sum) in sums.iter().enumerate() {
        digits[k] = rule.recover(*sum, hints[k]).unwrap();
    }
}
