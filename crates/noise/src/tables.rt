// The table of the laws, checked as a whole.
ghost use Rattle.noise.specs.Tables.{TablesHold};

// Does nothing: that it is proved says that under every law each value of the table gets as many words as the table says.
pub fn tables_hold()
    ensures { TablesHold }
{}
