// Reads requests from standard input, one to a line, and prints a line for each.
#![tactic(auto)]

use std::io::Read;
use std::process::ExitCode;
use vector_line::fault::LineFault;
use vector_line::line::answer;
use vector_line::lines::Lines;

fn main(rt: HostRuntime) -> anyhow::Result<ExitCode> {
    let mut input = Vec::new(rt.alloc());
    rt.stdin().read_to_end(&mut input)?;
    for (number, line) in (1usize..).zip(Lines::of(input.as_slice())) {
        match answer(rt.alloc(), line) {
            Ok(None) => {}
            Ok(Some(text)) => println!(rt; "{text}")?,
            Err(LineFault::NoRequest) => {
                eprintln!(rt; "line {number} is no request")?;
                return Ok(ExitCode::FAILURE);
            }
            Err(LineFault::Memory(error)) => return Err(error.into()),
        }
    }
    Ok(ExitCode::SUCCESS)
}
