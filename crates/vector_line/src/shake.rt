// The request `shake128 HEX LENGTH`.
ghost use Rattle.std.specs.Prelude.{◌≡◌, IfOk, vec_items, string_bytes};
ghost use Rattle.keccak.specs.Sponge.{shake128};
ghost use Rattle.text.specs.Words.{left};
ghost use Rattle.vector_line.specs.Faults.{Gives};
ghost use Rattle.vector_line.specs.Shakes.{message_of, shake_line};

use crate::arguments::two_words;
use crate::fault::LineFault;
use keccak::sponge::shake128;
use std::alloc::{AllocError, Global};
use text::decimal::decimal;
use text::hex::{decode, encode};
use text::words::Words;

// The message that a word writes: `-` is the empty one.
fn message_of(heap: Global, word: &[u8]) -> Result<Vec<u8>, LineFault>
    ensures { Gives vec_items (message_of word.now) result }
{
    if word == b"-".as_slice() {
        return Ok(Vec::new(heap));
    }
    decode(heap, word)?.ok_or(LineFault::NoRequest)
}

// The first bytes of SHAKE128 of the message.
fn output(heap: Global, message: &[u8], length: usize) -> Result<Vec<u8>, AllocError>
    ensures { IfOk result (λ v. v.items ≡ shake128 message.now length) }
{
    let mut bytes = vec![in heap; 0; length]?;
    shake128(message, bytes.as_mut_slice());
    Ok(bytes)
}

// What `shake128` with these words after it prints; no request, where they are no hex and length.
pub(crate) fn shake_line(heap: Global, words: Words<'_>) -> Result<String, LineFault>
    ensures { Gives string_bytes (shake_line (left words.entry)) result }
{
    let (message, length) = two_words(words).ok_or(LineFault::NoRequest)?;
    let message = message_of(heap, message)?;
    let length = decimal(length).ok_or(LineFault::NoRequest)?;
    // `as`: there is no `From` between u32 and usize
    let bytes = output(heap, message.as_slice(), length as usize)?;
    Ok(encode(heap, bytes.as_slice())?)
}
