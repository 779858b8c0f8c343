// The share that a word falls into, found by comparing the word with every bound of the law, and the value of a share.
ghost use Rattle.std.specs.Prelude.{◌≡◌, ◌≤◌, length, count_by, nat_le};
ghost use Rattle.noise.specs.Bounds.{index_of, value_at};
ghost use Rattle.noise.specs.Replies.{number_of};

use crate::law::NoiseLaw;

impl NoiseLaw {
    // How many bounds of the law, the first words of its shares but the first, the word has reached.
    #[tactic(auto, unfolding(crate::specs::Laws::laws))]
    pub(crate) fn share_index(self, word: u16) -> u8
        ensures { result ≡ index_of (number_of self) word }
    {
        match self {
            NoiseLaw::Zero => reached(&[1], word),
            NoiseLaw::One => reached(&[94, 156, 218, 235, 252, 254], word),
            NoiseLaw::Two => reached(&[1646, 2638, 3630, 3846, 4062, 4079], word),
            NoiseLaw::Three => reached(
                &[1238, 2167, 3096, 3489, 3882, 3976, 4070, 4082, 4094, 4095],
                word,
            ),
            NoiseLaw::Four => reached(
                &[
                    19794, 34659, 49524, 55816, 62108, 63607, 65106, 65306, 65506, 65521,
                ],
                word,
            ),
            NoiseLaw::Five => reached(
                &[
                    22218, 37708, 53198, 58440, 63682, 64540, 65398, 65465, 65532, 65534,
                ],
                word,
            ),
        }
    }
}

// How many of the bounds the word has reached. Each is compared, and none is searched for, so that the time does not depend on the
// word.
fn reached<const N: usize>(bounds: &[u16; N], word: u16) -> u8
    requires { length bounds.now ≤ 10 }
    ensures { result ≡ count_by (λ bound. nat_le bound word) bounds.now }
{
    bounds.iter().map(|bound| u8::from(word >= *bound)).sum()
}

// The value of the share with the index: 0, +1, -1, +2, -2 and so on.
pub(crate) fn value_at(index: u8) -> i16
    requires { index ≤ 10 }
    ensures { result ≡ value_at index }
{
    let size = i16::from((index + 1) / 2);
    let sign = 2 * i16::from(index % 2) - 1;
    size * sign
}
