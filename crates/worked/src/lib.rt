//! A small plan worked by hand, as a theorem about the definitions.
#![tactic(auto)]

ghost use Rattle.worked.specs.Values.{WorkedValues};

// Counts, steps, roughness, nearest cells, pairs and total of the worked plan are those of the definitions.
pub fn worked_values()
    ensures { WorkedValues }
{}
