// The words after the name of a request.
ghost use Rattle.std.specs.Prelude.{◌≡◌};
ghost use Rattle.std.specs.Option.{option_map};
ghost use Rattle.text.specs.Words.{left};
ghost use Rattle.vector_line.specs.Arguments.{two_words, four_words};

use text::words::Words;

// The words that are left, if they are two. They are not listed, so a line of many words takes no memory.
pub(crate) fn two_words<'a>(mut words: Words<'a>) -> Option<(&'a [u8], &'a [u8])>
    ensures { option_map (λ w. (w.0.now, w.1.now)) result ≡ two_words (left words.entry) }
{
    match (words.next(), words.next(), words.next()) {
        (Some(first), Some(second), None) => Some((first, second)),
        _ => None,
    }
}

// The words that are left, if they are four.
pub(crate) fn four_words<'a>(
    mut words: Words<'a>,
) -> Option<(&'a [u8], &'a [u8], &'a [u8], &'a [u8])>
    ensures { option_map (λ w. (w.0.now, w.1.now, w.2.now, w.3.now)) result ≡ four_words (left words.entry) }
{
    let first = words.next()?;
    let second = words.next()?;
    let (third, fourth) = two_words(words)?;
    Some((first, second, third, fourth))
}
