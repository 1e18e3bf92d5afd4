#![tactic(auto)]

ghost use Rattle.specimens.specs.Examples.{Worked};

// Holds the worked examples, which are facts about the definitions, in its contract.
pub fn worked_examples()
    ensures { Worked }
{}
