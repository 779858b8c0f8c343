// Decimal numbers.
ghost use Rattle.std.specs.Prelude.{◌≡◌};
ghost use Rattle.text.specs.Numbers.{decimal_value};

// The number that a word of digits writes, and None where the word is no such, or the number is 2^32 or more.
pub fn decimal(word: &[u8]) -> Option<u32>
    ensures { result ≡ decimal_value word.now }
{
    if word.is_empty() {
        return None;
    }
    let mut value: u32 = 0;
    for byte in word {
        let digit = char::from(*byte).to_digit(10)?;
        // more digits make it no smaller
        value = value.checked_mul(10)?.checked_add(digit)?;
    }
    Some(value)
}
