// Worked examples, as one statement in the words of the library's contracts.
#![tactic(auto)]

ghost use Rattle.std.specs.Prelude.{All};
ghost use Rattle.examples.specs.Examples.{Holds, examples};

// Does nothing; its contract is that each example of the list holds.
pub fn examples_hold()
    ensures { All Holds examples }
{}
