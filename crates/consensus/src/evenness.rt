// Evenness for lists of sums, each settled with a draw of its own.
ghost use Rattle.consensus.specs.Evenness.{EvenLists};

use crate::rule::Rule;

// Does nothing: that it is proved says that under every rule, whatever the hints, any two lists of digits are met equally often.
pub fn lists_are_even<R: Rule>(rule: &R)
    ensures { EvenLists (R.meaning rule.now) }
{}
