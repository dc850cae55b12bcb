// The law: the function asks for the theorem that its contract names.
ghost use Rattle.words.specs.Lines.{ReadsBack};

// Reading what was written gives the same turn.
pub fn reading_law()
    ensures { ReadsBack }
{}
