// The rules at a few small numbers.
ghost use Rattle.consensus.specs.Examples.{Examples};

// Does nothing: that it is proved says that the examples follow from the definitions.
pub fn examples_hold()
    ensures { Examples }
{}
