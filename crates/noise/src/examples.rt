// The laws at a few words.
ghost use Rattle.noise.specs.Examples.{Examples};

// Does nothing: that it is proved says that the examples follow from the definitions.
pub fn examples_hold()
    ensures { Examples }
{}
