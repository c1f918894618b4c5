// The worked examples: one list of rows, and one statement that every row holds.
#![tactic(auto)]

ghost use Rattle.examples.specs.Examples.{Holds, examples};
ghost use Rattle.std.specs.List.{AllByRecursion};

// Every worked example holds, by the definitions that the calls' contracts use.
pub fn worked_examples()
    ensures { AllByRecursion Holds examples }
{}
