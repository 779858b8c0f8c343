// The Keccak permutation: 24 rounds over a state of 25 lanes of 64 bits, where lane (x, y) stands at 5 * y + x.
// The steps of a round are written out lane by lane, since loops over the lanes are much slower.
ghost use Rattle.std.specs.Prelude.{◌≡◌};
ghost use Rattle.keccak.specs.Permutation.{theta_effects, theta, rho, pi, chi_row, chi, with_constant, permute};

const ROUND_CONSTANTS: [u64; 24] = [
    0x0000000000000001,
    0x0000000000008082,
    0x800000000000808a,
    0x8000000080008000,
    0x000000000000808b,
    0x0000000080000001,
    0x8000000080008081,
    0x8000000000008009,
    0x000000000000008a,
    0x0000000000000088,
    0x0000000080008009,
    0x000000008000000a,
    0x000000008000808b,
    0x800000000000008b,
    0x8000000000008089,
    0x8000000000008003,
    0x8000000000008002,
    0x8000000000000080,
    0x000000000000800a,
    0x800000008000000a,
    0x8000000080008081,
    0x8000000000008080,
    0x0000000080000001,
    0x8000000080008008,
];

// What theta XORs into the lanes at each x: the column parity at x - 1, and that at x + 1 rotated by one.
fn theta_effects(a: [u64; 25]) -> [u64; 5]
    ensures { result ≡ theta_effects a }
{
    let c0 = a[0] ^ a[5] ^ a[10] ^ a[15] ^ a[20];
    let c1 = a[1] ^ a[6] ^ a[11] ^ a[16] ^ a[21];
    let c2 = a[2] ^ a[7] ^ a[12] ^ a[17] ^ a[22];
    let c3 = a[3] ^ a[8] ^ a[13] ^ a[18] ^ a[23];
    let c4 = a[4] ^ a[9] ^ a[14] ^ a[19] ^ a[24];
    [
        c4 ^ c1.rotate_left(1),
        c0 ^ c2.rotate_left(1),
        c1 ^ c3.rotate_left(1),
        c2 ^ c4.rotate_left(1),
        c3 ^ c0.rotate_left(1),
    ]
}

fn theta(a: [u64; 25]) -> [u64; 25]
    ensures { result ≡ theta a }
{
    let d = theta_effects(a);
    [
        a[0] ^ d[0],
        a[1] ^ d[1],
        a[2] ^ d[2],
        a[3] ^ d[3],
        a[4] ^ d[4],
        a[5] ^ d[0],
        a[6] ^ d[1],
        a[7] ^ d[2],
        a[8] ^ d[3],
        a[9] ^ d[4],
        a[10] ^ d[0],
        a[11] ^ d[1],
        a[12] ^ d[2],
        a[13] ^ d[3],
        a[14] ^ d[4],
        a[15] ^ d[0],
        a[16] ^ d[1],
        a[17] ^ d[2],
        a[18] ^ d[3],
        a[19] ^ d[4],
        a[20] ^ d[0],
        a[21] ^ d[1],
        a[22] ^ d[2],
        a[23] ^ d[3],
        a[24] ^ d[4],
    ]
}

// Rotates each lane by its offset, and moves it to its new place.
fn rho_pi(a: [u64; 25]) -> [u64; 25]
    ensures { result ≡ pi (rho a) }
{
    [
        a[0],
        a[6].rotate_left(44),
        a[12].rotate_left(43),
        a[18].rotate_left(21),
        a[24].rotate_left(14),
        a[3].rotate_left(28),
        a[9].rotate_left(20),
        a[10].rotate_left(3),
        a[16].rotate_left(45),
        a[22].rotate_left(61),
        a[1].rotate_left(1),
        a[7].rotate_left(6),
        a[13].rotate_left(25),
        a[19].rotate_left(8),
        a[20].rotate_left(18),
        a[4].rotate_left(27),
        a[5].rotate_left(36),
        a[11].rotate_left(10),
        a[17].rotate_left(15),
        a[23].rotate_left(56),
        a[2].rotate_left(62),
        a[8].rotate_left(55),
        a[14].rotate_left(39),
        a[15].rotate_left(41),
        a[21].rotate_left(2),
    ]
}

// One row of chi, its five lanes: a0 ^ (!a1 & a2), and so on around the row. For speed, three complements do the work of five,
// since a1 ^ (!a2 & a3) is !a1 ^ (a2 | !a3).
fn chi_row(a0: u64, a1: u64, a2: u64, a3: u64, a4: u64) -> [u64; 5]
    ensures { result ≡ chi_row a0 a1 a2 a3 a4 }
{
    let n0 = !a0;
    let n1 = !a1;
    let n3 = !a3;
    [
        a0 ^ (n1 & a2),
        n1 ^ (a2 | n3),
        a2 ^ (n3 & a4),
        n3 ^ (a4 | n0),
        a4 ^ (n0 & a1),
    ]
}

// The only step that is not linear.
fn chi(a: [u64; 25]) -> [u64; 25]
    ensures { result ≡ chi a }
{
    let [b0, b1, b2, b3, b4] = chi_row(a[0], a[1], a[2], a[3], a[4]);
    let [b5, b6, b7, b8, b9] = chi_row(a[5], a[6], a[7], a[8], a[9]);
    let [b10, b11, b12, b13, b14] = chi_row(a[10], a[11], a[12], a[13], a[14]);
    let [b15, b16, b17, b18, b19] = chi_row(a[15], a[16], a[17], a[18], a[19]);
    let [b20, b21, b22, b23, b24] = chi_row(a[20], a[21], a[22], a[23], a[24]);
    [
        b0, b1, b2, b3, b4, b5, b6, b7, b8, b9, b10, b11, b12, b13, b14, b15, b16, b17, b18, b19,
        b20, b21, b22, b23, b24,
    ]
}

// Makes the rounds differ: XORs the constant of one into lane (0, 0).
fn iota(mut a: [u64; 25], constant: u64) -> [u64; 25]
    ensures { result ≡ with_constant a constant }
{
    a[0] ^= constant;
    a
}

fn round(a: [u64; 25], constant: u64) -> [u64; 25]
    ensures { result ≡ with_constant (chi (pi (rho (theta a)))) constant }
{
    iota(chi(rho_pi(theta(a))), constant)
}

// All 24 rounds. In place, which saves the sponge a copy of the state with each block.
pub(crate) fn permute_in_place(state: &mut [u64; 25])
    ensures { state.new ≡ permute state.old }
{
    let mut a = *state;
    for constant in &ROUND_CONSTANTS {
        // Not `a = round(..)`: a call that writes over its own array gets no proof.
        let next = round(a, *constant);
        a = next;
    }
    *state = a;
}

pub fn permute(mut state: [u64; 25]) -> [u64; 25]
    ensures { result ≡ permute state }
{
    permute_in_place(&mut state);
    state
}
