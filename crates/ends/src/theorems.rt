// What holds of the definitions that the calls of the ends cite.
ghost use Rattle.ends.specs.Agreement.{ExchangeAgrees};

// Does nothing: that it is proved says that in one undisturbed session both ends come to one digit at every place whose
// drift lies within the rule's distance.
pub fn exchange_agrees()
    ensures { ExchangeAgrees }
{}
