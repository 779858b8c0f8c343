// What holds of the definitions of the exchange.
ghost use Rattle.lwe.specs.Examples.{Examples};
ghost use Rattle.lwe.specs.Exchange.{DriftIdentity};

// Does nothing: that it is proved says that the two sums always differ by the drift.
pub fn drift_identity_holds()
    ensures { DriftIdentity }
{}

// Does nothing: that it is proved says that the examples follow from the definitions.
pub fn examples_hold()
    ensures { Examples }
{}
