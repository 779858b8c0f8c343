// The arithmetic that both rules are computed with.
ghost use Rattle.std.specs.Prelude.{◌≡◌, ◌^◌, ◌<◌, pos, ◌-ℤ◌};
ghost use Rattle.consensus.specs.Arithmetic.{residue, floor, round, apart, gcd, GreatestDivisor};

// The greatest common divisor, found by Euclid's rule.
pub fn gcd(a: u32, b: u32) -> u32
    ensures answer { result ≡ gcd a b }
    ensures greatest { GreatestDivisor a b result }
{
    if b == 0 { a } else { gcd(b, a % b) }
}

// `a / b` to the nearest whole number, a half upwards.
pub(crate) fn round(a: u32, b: u32) -> u32
    requires { (a < 2 ^ 30) × (0 < b) × (b < 2 ^ 30) }
    ensures { result ≡ round a b }
{
    (2 * a + b) / (2 * b)
}

// `up - down` mod `t`.
pub(crate) fn difference_mod(up: u32, down: u32, t: u32) -> u32
    requires { 0 < t }
    ensures { result ≡ residue (pos up -ℤ pos down) t }
{
    // Proved to fit: `try_from` would make an error that never comes.
    (i64::from(up) - i64::from(down)).rem_euclid(i64::from(t)) as u32
}

// `(up - down) / by`, floored, mod `t`.
pub(crate) fn floor_mod(up: u64, down: u64, by: u64, t: u32) -> u32
    requires small { (up < 2 ^ 62) × (down < 2 ^ 62) × (by < 2 ^ 62) }
    requires nonzero { (0 < by) × (0 < t) }
    ensures { result ≡ residue (floor (pos up -ℤ pos down) by) t }
{
    // All four casts are proved to fit: `try_from` would make errors that never come.
    (up as i64 - down as i64)
        .div_euclid(by as i64)
        .rem_euclid(i64::from(t)) as u32
}

// How far `a` and `b` lie apart around `q`.
pub(crate) fn apart(q: u32, a: u32, b: u32) -> u32
    requires { 0 < q }
    ensures { result ≡ apart q a b }
{
    let x = difference_mod(a, b, q);
    x.min(q - x)
}
