// The request `noise LAW WORD`.
ghost use Rattle.std.specs.Prelude.{◌≡◌, IfOk, string_bytes};
ghost use Rattle.text.specs.Words.{left};
ghost use Rattle.vector_line.specs.Faults.{Gives};
ghost use Rattle.vector_line.specs.Samples.{sample_reply, sample_text, sample_line};

use crate::arguments::two_words;
use crate::fault::LineFault;
use noise::fault::NoiseFault;
use noise::law::NoiseLaw;
use refusal::Fault;
use std::alloc::{AllocError, Global};
use text::decimal::decimal;
use text::words::Words;

// The value that the law sends the word to, or the first refusal. No law and no word is too large for its type.
fn sample(law: u32, word: u32) -> Result<i16, NoiseFault>
    ensures { result ≡ sample_reply law word }
{
    let law = u8::try_from(law).or(Err(NoiseFault::Law))?;
    let law = NoiseLaw::try_from(law)?;
    let word = u16::try_from(word).or(Err(NoiseFault::Word))?;
    law.value(word)
}

// The line of a value, or of a refusal.
fn sample_text(heap: Global, reply: Result<i16, NoiseFault>) -> Result<String, AllocError>
    ensures { IfOk result (λ text. string_bytes text ≡ sample_text reply) }
{
    match reply {
        Ok(value) => format!(in heap; "{value}"),
        Err(fault) => format!(in heap; "{}", fault.refusal()),
    }
}

// What `noise` with these words after it prints; no request, where they are no two numbers.
pub fn sample_line(heap: Global, words: Words<'_>) -> Result<String, LineFault>
    ensures { Gives string_bytes (sample_line (left words.entry)) result }
{
    let (law, word) = two_words(words).ok_or(LineFault::NoRequest)?;
    let law = decimal(law).ok_or(LineFault::NoRequest)?;
    let word = decimal(word).ok_or(LineFault::NoRequest)?;
    Ok(sample_text(heap, sample(law, word))?)
}
