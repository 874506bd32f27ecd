ghost use Rattle.keys.specs.Worked.{WorkedKeys};

/// The worked lines of the codings follow from the rules.
pub fn worked_keys()
    ensures { WorkedKeys }
{}
