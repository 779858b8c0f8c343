// Bytes written as hex: two digits for each byte, the high one first.
ghost use Rattle.std.specs.Prelude.{◌≡◌, IfOk, Some, ◌<◌, length, vec_items, string_bytes};
ghost use Rattle.std.specs.Option.{option_map};
ghost use Rattle.text.specs.Hex.{byte_of, bytes_of, sized_bytes, seed_of, letter, hex_of};

use std::alloc::{AllocError, Global};

// The byte that two digits write.
fn byte_of(high: u8, low: u8) -> Option<u8>
    ensures { result ≡ byte_of high low }
{
    let high = char::from(high).to_digit(16)?;
    let low = char::from(low).to_digit(16)?;
    u8::try_from(high * 16 + low).ok()
}

// Fills the slice with the bytes that the word writes, and answers None where it writes no bytes, or not so many.
fn decode_into(word: &[u8], bytes: &mut [u8]) -> Option<()>
    ensures { option_map (λ _. bytes.new) result ≡ sized_bytes (length bytes.old) word.now }
{
    if word.len() % 2 == 1 || word.len() / 2 != bytes.len() {
        return None;
    }
    for (i, byte) in bytes.iter_mut().enumerate() {
        *byte = byte_of(word[2 * i], word[2 * i + 1])?;
    }
    Some(())
}

// The bytes that a word writes, and None where its length is odd or a byte of it is no hex digit.
pub fn decode(heap: Global, word: &[u8]) -> Result<Option<Vec<u8>>, AllocError>
    ensures { IfOk result (λ o. option_map vec_items o ≡ bytes_of word.now) }
{
    if word.len() % 2 == 1 {
        return Ok(None);
    }
    // Pushed one by one, so that only digits already read take memory.
    let mut bytes = Vec::new(heap);
    for i in 0..word.len() / 2 {
        let Some(byte) = byte_of(word[2 * i], word[2 * i + 1]) else {
            return Ok(None);
        };
        bytes.push(byte)?;
    }
    Ok(Some(bytes))
}

// The seed that a word of 64 hex digits writes, and None for any other word.
pub fn decode_seed(word: &[u8]) -> Option<[u8; 32]>
    ensures { result ≡ seed_of word.now }
{
    let mut seed = [0; 32];
    decode_into(word, &mut seed)?;
    Some(seed)
}

// The digit as it is written.
fn letter_of(digit: u8) -> char
    requires { digit < 16 }
    ensures value { result ≡ letter digit }
    ensures ascii { result < 128 }
{
    char::from_digit(u32::from(digit), 16).unwrap()
}

// The text that writes the bytes, in lower case.
pub fn encode(heap: Global, bytes: &[u8]) -> Result<String, AllocError>
    ensures text { IfOk result (λ text. string_bytes text ≡ hex_of bytes.now) }
    ensures reads_back { bytes_of (hex_of bytes.now) ≡ Some bytes.now }
{
    let mut text = String::new(heap);
    for byte in bytes {
        text.push(letter_of(byte / 16))?;
        text.push(letter_of(byte % 16))?;
    }
    Ok(text)
}
