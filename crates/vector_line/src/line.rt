// The answer to a line, and the lines of an input.
ghost use Rattle.std.specs.Prelude.{◌≡◌, ◌+◌, take, drop, string_bytes};
ghost use Rattle.std.specs.Option.{option_map};
ghost use Rattle.text.specs.Words.{left, place};
ghost use Rattle.vector_line.specs.Answers.{answer_of, line_of};
ghost use Rattle.vector_line.specs.Faults.{Gives};

use crate::fault::LineFault;
use crate::row::row_line;
use crate::shake::shake_line;
use std::alloc::Global;
use text::words::Words;

// The line that a request prints, by its name and the words after it.
fn request_line(heap: Global, name: &[u8], words: Words<'_>) -> Result<String, LineFault>
    ensures { Gives string_bytes (line_of name.now (left words.entry)) result }
{
    match name {
        b"shake128" => shake_line(heap, words),
        b"row" => row_line(heap, words),
        _ => Err(LineFault::NoRequest),
    }
}

// What the line prints; a line with no word prints nothing.
pub fn answer(heap: Global, line: &[u8]) -> Result<Option<String>, LineFault>
    ensures { Gives (option_map string_bytes) (answer_of line.now) result }
{
    let mut words = Words::of(line);
    match words.next() {
        None => Ok(None),
        Some(name) => Ok(Some(request_line(heap, name, words)?)),
    }
}

// The first line of an input, and what follows its line feed.
pub fn first_line(input: &[u8]) -> (&[u8], &[u8])
    ensures front { result.0.now ≡ take (place 10 input.now) input.now }
    ensures back { result.1.now ≡ drop (place 10 input.now + 1) input.now }
{
    match input.iter().position(|b| *b == b'\n') {
        Some(i) => (&input[..i], &input[i + 1..]),
        None => (input, &[]),
    }
}
