// Reads records of seven 16-bit numbers from standard input, and prints a line for each.
#![tactic(auto)]

use std::io::Read;
use trial_record::line::lines;

fn main(rt: HostRuntime) -> anyhow::Result<()> {
    let mut input = Vec::new(rt.alloc());
    rt.stdin().read_to_end(&mut input)?;
    print!(rt; "{}", lines(rt.alloc(), input.as_slice())?)?;
    Ok(())
}
