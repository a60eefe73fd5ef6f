// The rules of the calls, the file book, runs and their promises.
#![tactic(auto)]

ghost use Rattle.rules.specs.Promises.{EveryRunKeepsItsPromises};

// Every run keeps its promises.
pub fn runs_stand() -> u8
    ensures { EveryRunKeepsItsPromises }
{
    0
}
