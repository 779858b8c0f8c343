// Why a record is refused.
ghost use Rattle.std.specs.Prelude.{◌≡◌};
ghost use Rattle.trial_record.specs.Faults.{number, place, words};
ghost use Rattle.trial_record.specs.declared.fault.TrialFault.TheVariants.{Refused, UnknownRule};

use consensus::fault::RuleFault;
use consensus::kind;
use refusal::{Fault, Refusal};

#[derive(Clone, Copy)]
pub enum TrialFault {
    // The rule refused to be built or called.
    Refused(RuleFault),
    // No rule has the number.
    UnknownRule,
    // The input ends within the record.
    CutShort,
}

impl Fault for TrialFault {
    ghost number_of = { number };

    ghost place_of = { place };

    ghost words_of = { words };

    fn refusal(&self) -> Refusal {
        match self {
            TrialFault::Refused(fault) => fault.refusal(),
            TrialFault::UnknownRule => Refusal::new(1, "no rule has the number"),
            TrialFault::CutShort => Refusal::new(9, "the input ends within the record"),
        }
    }
}

// Both by hand: a derived one does not say which fault it makes.
impl From<RuleFault> for TrialFault {
    ghost from_gives = { λ fault r. r ≡ Refused fault };

    fn from(fault: RuleFault) -> TrialFault {
        TrialFault::Refused(fault)
    }
}

impl From<kind::UnknownRule> for TrialFault {
    ghost from_gives = { λ unknown r. r ≡ UnknownRule };

    fn from(_unknown: kind::UnknownRule) -> TrialFault {
        TrialFault::UnknownRule
    }
}
