// An offer and an answer of a few numbers.
ghost use Rattle.wire.specs.Examples.{Examples};

// Does nothing: that it is proved says that the examples follow from the definitions.
pub fn examples_hold()
    ensures { Examples }
{}
