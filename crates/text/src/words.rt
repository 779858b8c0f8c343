// A line cut into words.
ghost use Rattle.std.specs.Prelude.{◌≡◌, ◌≤◌, length};
ghost use Rattle.std.specs.Iterator.{YieldsFirstRef, item_count};
ghost use Rattle.text.specs.Words.{words, left, spaces, place};

// The words of a line that are still to come.
#[derive(Clone, Copy)]
pub struct Words<'a> {
    rest: &'a [u8],
}

impl<'a> Words<'a> {
    pub fn of(line: &'a [u8]) -> Words<'a>
        ensures { left result ≡ words line.now }
    {
        let end = place_of(b'#', line);
        Words { rest: &line[..end] }
    }
}

impl<'a> Iterator for Words<'a> {
    type Item = &'a [u8];

    ghost next_gives = { YieldsFirstRef left };

    ghost remaining = { item_count left };

    fn next(&mut self) -> Option<&'a [u8]> {
        let start = leading_spaces(self.rest);
        let from_word = &self.rest[start..];
        let (word, rest) = from_word.split_at(place_of(b' ', from_word));
        self.rest = rest;
        if word.is_empty() { None } else { Some(word) }
    }
}

// Where the byte first stands, and the length where it does not.
fn place_of(byte: u8, bytes: &[u8]) -> usize
    ensures value { result ≡ place byte bytes.now }
    ensures within { result ≤ length bytes.now }
{
    bytes.iter().position(|b| *b == byte).unwrap_or(bytes.len())
}

fn leading_spaces(bytes: &[u8]) -> usize
    ensures value { result ≡ spaces bytes.now }
    ensures within { result ≤ length bytes.now }
{
    bytes.iter().position(|b| *b != b' ').unwrap_or(bytes.len())
}
