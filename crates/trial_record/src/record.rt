// The seven numbers of a record, and what the rule makes of them.
ghost use Rattle.std.specs.Prelude.{◌≡◌, ◌≤◌, IfOk};
ghost use Rattle.consensus.specs.Arithmetic.{apart};
ghost use Rattle.trial_record.specs.Trials.{read_reply, attempt, run_reply};

use crate::fault::TrialFault;
use consensus::akcn::Akcn;
use consensus::carry::carry;
use consensus::fault::RuleFault;
use consensus::kind::RuleKind;
use consensus::okcn::Okcn;
use consensus::rule::Rule;

#[derive(Clone, Copy)]
pub struct Record {
    // The number of a `RuleKind`, or one that no rule has: reading takes any.
    pub rule: u16,
    pub q: u16,
    pub m: u16,
    pub g: u16,
    pub sum: u16,
    pub draw: u16,
    pub second: u16,
}

// The digit and the hint that were settled, the digit that was recovered, and the rule's distance.
#[derive(Clone, Copy)]
pub struct Outcome {
    pub digit: u16,
    pub hint: u16,
    pub recovered: u16,
    pub distance: u32,
}

impl Record {
    // The record at the front of the bytes: seven numbers, high byte first.
    pub fn read(bytes: &[u8]) -> Result<Record, TrialFault>
        ensures { result ≡ read_reply bytes.now }
    {
        let &[r1, r0, q1, q0, m1, m0, g1, g0, s1, s0, d1, d0, t1, t0, ..] = bytes else {
            return Err(TrialFault::CutShort);
        };
        Ok(Record {
            rule: u16::from_be_bytes([r1, r0]),
            q: u16::from_be_bytes([q1, q0]),
            m: u16::from_be_bytes([m1, m0]),
            g: u16::from_be_bytes([g1, g0]),
            sum: u16::from_be_bytes([s1, s0]),
            draw: u16::from_be_bytes([d1, d0]),
            second: u16::from_be_bytes([t1, t0]),
        })
    }

    // Builds the rule, settles the sum with the draw, and recovers from the second sum.
    pub fn run(&self) -> Result<Outcome, TrialFault>
        ensures answer { result ≡ run_reply self.now }
        ensures agrees { IfOk result (λ o. apart self.now.q self.now.sum self.now.second ≤ o.distance → o.recovered ≡ o.digit) }
    {
        let q = u32::from(self.q);
        let m = u32::from(self.m);
        let g = u32::from(self.g);
        match RuleKind::try_from(self.rule)? {
            RuleKind::Okcn => Ok(attempt(&Okcn::new(q, m, g)?, self)?),
            RuleKind::Akcn => Ok(attempt(&Akcn::new(q, m, g)?, self)?),
        }
    }
}

fn attempt<R: Rule>(rule: &R, numbers: &Record) -> Result<Outcome, RuleFault>
    ensures answer { result ≡ attempt (R.Rule.meaning rule.now) numbers.now }
    ensures agrees { IfOk result (λ o. apart (R.Rule.meaning rule.now).modulus numbers.now.sum numbers.now.second ≤ o.distance → o.recovered ≡ o.digit) }
{
    let carried = carry(rule, numbers.sum, numbers.draw, numbers.second)?;
    Ok(Outcome {
        digit: carried.digit,
        hint: carried.hint,
        recovered: carried.recovered,
        distance: rule.distance(),
    })
}
