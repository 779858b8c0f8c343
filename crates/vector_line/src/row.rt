// The request `row SEED I N Q`.
ghost use Rattle.std.specs.Prelude.{◌≡◌, true, is_some, IfOk, string_bytes};
ghost use Rattle.std.specs.Result.{result_map_both};
ghost use Rattle.matrix.specs.Expanding.{expanding_of, expanding_row};
ghost use Rattle.text.specs.Words.{left};
ghost use Rattle.vector_line.specs.Faults.{Gives};
ghost use Rattle.vector_line.specs.Rows.{turned_entries, spaced_text, row_reply, row_request, row_text, row_line};

use crate::arguments::four_words;
use crate::fault::LineFault;
use matrix::expanding::ExpandingSource;
use matrix::fault::SourceFault;
use matrix::source::MatrixSource;
use refusal::Fault;
use std::alloc::{AllocError, Global};
use text::decimal::decimal;
use text::hex::decode_seed;
use text::words::Words;

// The entries of the row that the source is turned to.
fn turned_entries<S: MatrixSource>(heap: Global, source: &S) -> Result<Vec<u16>, AllocError>
    requires { is_some (S.MatrixSource.turned source.now) ≡ true }
    ensures { IfOk result (λ v. v.items ≡ turned_entries (S.MatrixSource.meaning source.now) (S.MatrixSource.turned source.now)) }
{
    let mut entries = Vec::new(heap);
    // a loop: in the closure of a chain nothing tells that the column is there
    for j in 0..source.side() {
        entries.push(source.column(j).unwrap())?;
    }
    Ok(entries)
}

// The numbers in decimal, with single spaces between them.
fn spaced(heap: Global, numbers: &[u16]) -> Result<String, AllocError>
    ensures { IfOk result (λ text. string_bytes text ≡ spaced_text numbers.now) }
{
    let [first, others @ ..] = numbers else {
        return Ok(String::new(heap));
    };
    let mut text = format!(in heap; "{first}")?;
    for number in others {
        write!(text, " {number}")?;
    }
    Ok(text)
}

// A row of a seed, and the side and the modulus of the source that is asked for it.
#[derive(Drop)]
struct RowRequest {
    seed: [u8; 32],
    row: usize,
    n: usize,
    q: u32,
}

impl RowRequest {
    // The request that the words make, if they are a seed and three numbers.
    fn parse(words: Words<'_>) -> Option<RowRequest>
        ensures { result ≡ row_request (left words.entry) }
    {
        let (seed, row, n, q) = four_words(words)?;
        // `as`: there is no `From` between u32 and usize
        Some(RowRequest {
            seed: decode_seed(seed)?,
            row: decimal(row)? as usize,
            n: decimal(n)? as usize,
            q: decimal(q)?,
        })
    }

    // The expanding source with side n and modulus q, turned to the row, or the first refusal.
    fn source(&self) -> Result<ExpandingSource, SourceFault>
        ensures row { result_map_both (λ source. turned_entries (expanding_of source) (expanding_row source)) (λ fault. fault) result ≡ row_reply self.now.seed self.now.row self.now.n self.now.q }
        ensures turned { IfOk result (λ source. is_some (expanding_row source) ≡ true) }
    {
        let mut source = ExpandingSource::new(self.n, self.q)?;
        source.turn(&self.seed, self.row)?;
        Ok(source)
    }

    // The line of the row's entries, or of a refusal.
    fn line(&self, heap: Global) -> Result<String, AllocError>
        ensures { IfOk result (λ text. string_bytes text ≡ row_text (row_reply self.now.seed self.now.row self.now.n self.now.q)) }
    {
        match self.source() {
            Ok(source) => spaced(heap, turned_entries(heap, &source)?.as_slice()),
            Err(fault) => format!(in heap; "{}", fault.refusal()),
        }
    }
}

// What `row` with these words after it prints; no request, where they are no seed and three numbers.
pub(crate) fn row_line(heap: Global, words: Words<'_>) -> Result<String, LineFault>
    ensures { Gives string_bytes (row_line (left words.entry)) result }
{
    let request = RowRequest::parse(words).ok_or(LineFault::NoRequest)?;
    Ok(request.line(heap)?)
}
