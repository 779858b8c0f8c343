// The line that a record prints, and the lines of a whole input.
ghost use Rattle.std.specs.Prelude.{◌≡◌, IfOk, string_bytes};
ghost use Rattle.trial_record.specs.Lines.{line, output};
ghost use Rattle.trial_record.specs.Trials.{record_reply};

use crate::fault::TrialFault;
use crate::record::{Outcome, Record};
use refusal::Fault;
use std::alloc::{AllocError, Global};

fn try_record(bytes: &[u8]) -> Result<Outcome, TrialFault>
    ensures { result ≡ record_reply bytes.now }
{
    Record::read(bytes)?.run()
}

// The line of the record at the front of the bytes.
fn record_line(heap: Global, bytes: &[u8]) -> Result<String, AllocError>
    ensures { IfOk result (λ text. string_bytes text ≡ line (record_reply bytes.now)) }
{
    match try_record(bytes) {
        Ok(
            Outcome {
                digit,
                hint,
                recovered,
                distance,
            },
        ) => format!(in heap; "{digit} {hint} {recovered} {distance}"),
        Err(fault) => format!(in heap; "{}", fault.refusal()),
    }
}

// All lines of an input: one for each record, and one for a rest that is shorter than a record.
pub fn lines(heap: Global, input: &[u8]) -> Result<String, AllocError>
    ensures { IfOk result (λ text. string_bytes text ≡ output input.now) }
{
    let mut text = String::new(heap);
    for record in input.chunks(14) {
        let line = record_line(heap, record)?;
        text.push_str(line.as_str())?;
        text.push_str("\n")?;
    }
    Ok(text)
}
