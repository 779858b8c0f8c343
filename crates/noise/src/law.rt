// A noise law, by its number.
ghost use Rattle.std.specs.Prelude.{◌≡◌, ◌^◌};
ghost use Rattle.std.specs.Result.{result_map_both};
ghost use Rattle.noise.specs.Laws.{width_of};
ghost use Rattle.noise.specs.Replies.{number_of, law_reply, value_reply};

use crate::bounds::value_at;
use crate::fault::NoiseFault;

#[derive(Clone, Copy, PartialEq, Eq, Debug)]
pub enum NoiseLaw {
    Zero,
    One,
    Two,
    Three,
    Four,
    Five,
}

impl TryFrom<u8> for NoiseLaw {
    type Error = NoiseFault;

    ghost try_from_gives = { λ number law. result_map_both number_of (λ fault. fault) law ≡ law_reply number };

    fn try_from(number: u8) -> Result<NoiseLaw, NoiseFault> {
        match number {
            0 => Ok(NoiseLaw::Zero),
            1 => Ok(NoiseLaw::One),
            2 => Ok(NoiseLaw::Two),
            3 => Ok(NoiseLaw::Three),
            4 => Ok(NoiseLaw::Four),
            5 => Ok(NoiseLaw::Five),
            _ => Err(NoiseFault::Law),
        }
    }
}

impl NoiseLaw {
    pub fn number(&self) -> u8
        ensures { result ≡ number_of self.now }
    {
        // the variants stand in the order of their numbers
        *self as u8
    }

    // How many bits a word has.
    #[tactic(auto, unfolding(crate::specs::Laws::laws))]
    pub fn width(&self) -> u32
        ensures { result ≡ width_of (number_of self.now) }
    {
        match self {
            NoiseLaw::Zero => 1,
            NoiseLaw::One => 8,
            NoiseLaw::Two | NoiseLaw::Three => 12,
            NoiseLaw::Four | NoiseLaw::Five => 16,
        }
    }

    // Words are below it.
    pub fn word_limit(&self) -> u32
        ensures { result ≡ 2 ^ width_of (number_of self.now) }
    {
        1 << self.width()
    }

    // The value that the word goes to. The time that it takes does not depend on the value.
    pub fn value(&self, word: u16) -> Result<i16, NoiseFault>
        ensures { result ≡ value_reply (number_of self.now) word }
    {
        if u32::from(word) >= self.word_limit() {
            return Err(NoiseFault::Word);
        }
        Ok(value_at(self.share_index(word)))
    }
}
