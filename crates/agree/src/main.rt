// Carries a digit from one side to the other, and says what each side does: by OKCN, by AKCN, and by OKCN with a sum
// that lies beyond the distance.
#![tactic(auto)]

use consensus::akcn::Akcn;
use consensus::kind::RuleKind;
use consensus::okcn::Okcn;
use report::Report;

mod report;

fn main(rt: HostRuntime) -> anyhow::Result<()> {
    let okcn = Okcn::new(16, 4, 8)?;
    let akcn = Akcn::new(11, 2, 8)?;
    println!(rt; "{}", Report::of(RuleKind::Okcn, &okcn, 7, 0, 8)?)?;
    println!(rt; "{}", Report::of(RuleKind::Akcn, &akcn, 5, 1, 6)?)?;
    println!(rt; "{}", Report::of(RuleKind::Okcn, &okcn, 7, 0, 10)?)?;
    Ok(())
}
