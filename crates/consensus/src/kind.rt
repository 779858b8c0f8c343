// The two rules by name and by number.
ghost use Rattle.std.specs.Prelude.{◌≡◌, Some};
ghost use Rattle.consensus.specs.Kinds.{kind_reply, name, unknown_rule};

use std::error::Error;
use std::fmt;

#[derive(Clone, Copy, PartialEq, Eq, Debug)]
pub enum RuleKind {
    Okcn,
    Akcn,
}

// No rule has the number.
#[derive(Clone, Copy, PartialEq, Eq, Debug)]
pub struct UnknownRule;

impl TryFrom<u16> for RuleKind {
    type Error = UnknownRule;

    ghost try_from_gives = { λ number r. r ≡ kind_reply number };

    fn try_from(number: u16) -> Result<RuleKind, UnknownRule> {
        match number {
            1 => Ok(RuleKind::Okcn),
            2 => Ok(RuleKind::Akcn),
            _ => Err(UnknownRule),
        }
    }
}

impl fmt::Display for RuleKind {
    ghost output = { λ kind. Some (name kind) };

    fn fmt<W: fmt::Write>(&self, f: &mut fmt::Formatter<W>) -> fmt::Result {
        f.write_str(match self {
            RuleKind::Okcn => "OKCN",
            RuleKind::Akcn => "AKCN",
        })
    }
}

impl fmt::Display for UnknownRule {
    ghost output = { λ _. Some unknown_rule };

    fn fmt<W: fmt::Write>(&self, f: &mut fmt::Formatter<W>) -> fmt::Result {
        f.write_str("no rule has the number")
    }
}

impl Error for UnknownRule {}
