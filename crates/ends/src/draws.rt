// The words that a call takes: whether they are as they should be, and the values of those that are noise.
ghost use Rattle.std.specs.Prelude.{◌≡◌, ℕ, ◌+◌, ◌^◌, ◌<◌, ◌≤◌, map, length, pos, slice_index};
ghost use Rattle.lwe.specs.Matrices.{padded};
ghost use Rattle.noise.specs.Laws.{value_of, width_of};
ghost use Rattle.noise.specs.Replies.{number_of};
ghost use Rattle.ends.specs.Draws.{draw_fault, limit_at};
ghost use Rattle.ends.specs.Refusals.{unless};

use crate::fault::EndFault;
use noise::law::NoiseLaw;

// So many words of noise, each below a limit, and then so many draws of the rule, each below another.
#[derive(Clone, Copy)]
pub struct WordsNeeded {
    pub noise: usize,
    pub noise_limit: u32,
    pub draws: usize,
    pub draw_limit: u32,
}

impl WordsNeeded {
    fn limit(&self, i: usize) -> u32
        ensures { result ≡ limit_at self.now i }
    {
        if i < self.noise {
            self.noise_limit
        } else {
            self.draw_limit
        }
    }

    // Whether these words are as needed: their count is looked at first, then each word in turn.
    pub(crate) fn check(&self, words: &[u16]) -> Result<(), EndFault>
        requires { self.now.noise + self.now.draws < 2 ^ 64 }
        ensures { result ≡ unless (draw_fault self.now words.now) tt }
    {
        let needed = self.noise + self.draws;
        if words.len() != needed {
            return Err(EndFault::DrawCount { needed });
        }
        for (i, word) in words.iter().enumerate() {
            if u32::from(*word) >= self.limit(i) {
                return Err(EndFault::Draw { index: i });
            }
        }
        Ok(())
    }
}

// The values of noise words, and zeros behind them.
pub(crate) fn sample(law: &NoiseLaw, words: &[u16], values: &mut [i16])
    requires room { length words.now ≤ length values.old }
    requires below { (k : ℕ) → k < length words.now → slice_index words.now k < 2 ^ width_of (number_of law.now) }
    ensures { values.new ≡ padded (pos 0) (length values.old) (map (value_of (number_of law.now)) words.now) }
{
    values.fill(0);
    // by index: what is written through a `zip` is not known to a proof
    for (k, word) in words.iter().enumerate() {
        values[k] = law.value(*word).unwrap();
    }
}
