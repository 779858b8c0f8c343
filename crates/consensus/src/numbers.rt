// The five numbers of a rule: how they are found, and what they keep out.
ghost use Rattle.std.specs.Prelude.{◌≡◌, ◌-◌, ◌*◌, ◌<◌, IfOk, Ok, nat_lt};
ghost use Rattle.consensus.specs.Numbers.{made};
ghost use Rattle.consensus.specs.Replies.{built, check};
ghost use Rattle.consensus.specs.Rules.{largest_distance};
ghost use Rattle.consensus.specs.declared.fault.RuleFault.TheVariants.{Draw, Range};

use crate::fault::RuleFault;

#[derive(Clone, Copy, PartialEq, Eq, Debug)]
pub struct Numbers {
    // q: sums run from 0 to q - 1.
    pub modulus: u32,
    // m: digits run from 0 to m - 1.
    pub digits: u32,
    // g: hints run from 0 to g - 1.
    pub hints: u32,
    // d: sums that lie at most so far apart around q come to one digit.
    pub distance: u32,
    // C: draws run from 0 to C - 1.
    pub draws: u32,
}

// The largest d with `(2 * d + 1) * m * g < bound`.
fn largest_distance(m: u32, g: u32, bound: u32) -> u32
    requires { (0 < m * g) × (m * g < bound) }
    ensures { result ≡ largest_distance m g bound }
{
    ((bound - 1) / (m * g) - 1) / 2
}

impl Numbers {
    // With the largest d with `(2 * d + 1) * m * g < q * (g - less)`, and a draw for each digit. Numbers outside their limits are
    // refused, then those with no d.
    pub(crate) fn new(q: u32, m: u32, g: u32, less: u32) -> Result<Numbers, RuleFault>
        ensures { result ≡ built q m g (q * (g - less)) (made q m g (q * (g - less))) }
    {
        let in_limits = (2..=32768).contains(&q)
            && (2..=256).contains(&m)
            && (2..=4096).contains(&g)
            && m <= q
            && g <= q;
        if !in_limits {
            return Err(RuleFault::Limits);
        }
        let bound = q * g.saturating_sub(less);
        if bound <= m * g {
            return Err(RuleFault::Distance);
        }
        Ok(Numbers {
            modulus: q,
            digits: m,
            hints: g,
            distance: largest_distance(m, g, bound),
            draws: m,
        })
    }

    // Refuses a sum out of range, then a draw.
    pub(crate) fn check_settling(&self, sum: u16, draw: u16) -> Result<(), RuleFault>
        ensures answer { result ≡ check (nat_lt sum self.now.modulus) Range (check (nat_lt draw self.now.draws) Draw (Ok tt)) }
        ensures granted { IfOk result (λ _. (sum < self.now.modulus) × (draw < self.now.draws)) }
    {
        if u32::from(sum) >= self.modulus {
            return Err(RuleFault::Range);
        }
        if u32::from(draw) >= self.draws {
            return Err(RuleFault::Draw);
        }
        Ok(())
    }

    // Refuses a sum or a hint out of range.
    pub(crate) fn check_recovering(&self, sum: u16, hint: u16) -> Result<(), RuleFault>
        ensures answer { result ≡ check (nat_lt sum self.now.modulus) Range (check (nat_lt hint self.now.hints) Range (Ok tt)) }
        ensures granted { IfOk result (λ _. (sum < self.now.modulus) × (hint < self.now.hints)) }
    {
        if u32::from(sum) >= self.modulus || u32::from(hint) >= self.hints {
            return Err(RuleFault::Range);
        }
        Ok(())
    }
}
