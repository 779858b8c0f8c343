// What happens to a digit on its way from one side to the other.
ghost use Rattle.std.specs.Prelude.{◌≡◌, ◌≤◌, IfOk};
ghost use Rattle.agree.specs.Reports.{report_reply};

use consensus::carry::{Carried, carry};
use consensus::fault::RuleFault;
use consensus::kind::RuleKind;
use consensus::numbers::Numbers;
use consensus::rule::Rule;
use std::fmt;

// The rule with its five numbers, what the sides hold, and what came of it.
#[derive(Clone, Copy)]
pub struct Report {
    kind: RuleKind,
    numbers: Numbers,
    sum: u16,
    draw: u16,
    second: u16,
    carried: Carried,
}

impl Report {
    // Settles `sum` with `draw` by the rule, and recovers from `second`. The five are what a caller chooses, each by itself.
    pub fn of<R: Rule>(
        kind: RuleKind,
        rule: &R,
        sum: u16,
        draw: u16,
        second: u16,
    ) -> Result<Report, RuleFault>
        ensures answer { result ≡ report_reply kind (R.Rule.meaning rule.now) sum draw second }
        ensures agrees { IfOk result (λ p. p.carried.apart ≤ p.numbers.distance → p.carried.recovered ≡ p.carried.digit) }
    {
        let carried = carry(rule, sum, draw, second)?;
        Ok(Report {
            kind,
            numbers: rule.numbers(),
            sum,
            draw,
            second,
            carried,
        })
    }
}

impl fmt::Display for Report {
    fn fmt<W: fmt::Write>(&self, f: &mut fmt::Formatter<W>) -> fmt::Result {
        let Report {
            kind,
            numbers,
            sum,
            draw,
            second,
            carried,
        } = *self;
        let Numbers {
            modulus,
            digits,
            hints,
            distance,
            draws,
        } = numbers;
        let Carried { digit, hint, .. } = carried;
        writeln!(
            f,
            "{kind} is built: sums below {modulus}, digits below {digits}, hints below {hints}, draws below {draws}, distance {distance}."
        )?;
        writeln!(
            f,
            "  The first side settles its sum {sum} with draw {draw}: digit {digit}, hint {hint}."
        )?;
        writeln!(f, "  It keeps the digit and sends hint {hint}.")?;
        let other = OtherSide {
            numbers,
            second,
            carried,
        };
        write!(f, "{other}")
    }
}

// What the side that holds the second sum comes to.
#[derive(Clone, Copy)]
struct OtherSide {
    numbers: Numbers,
    second: u16,
    carried: Carried,
}

impl fmt::Display for OtherSide {
    fn fmt<W: fmt::Write>(&self, f: &mut fmt::Formatter<W>) -> fmt::Result {
        let Numbers {
            modulus,
            distance,
            ..
        } = self.numbers;
        let Carried {
            digit,
            hint,
            recovered,
            apart,
        } = self.carried;
        let reach = if apart <= distance {
            "within"
        } else {
            "beyond"
        };
        writeln!(
            f,
            "  The other side holds sum {}, {apart} away around {modulus}: {reach} the distance.",
            self.second
        )?;
        writeln!(
            f,
            "  From it and hint {hint} it recovers digit {recovered}."
        )?;
        if recovered == digit {
            writeln!(f, "  The two sides agree on digit {digit}.")
        } else {
            writeln!(f, "  The two sides do not agree.")
        }
    }
}
