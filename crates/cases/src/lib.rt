// Worked cases of whole runs of the scheduler, as the contract of a function that does nothing.
#![tactic(auto)]

ghost use Rattle.cases.specs.Cases.{CasesHold};

// The worked cases of whole runs: each run, as the definitions give it, writes the lines and notices that are listed.
pub fn worked_cases()
    ensures { CasesHold }
{}
