// What is promised of all runs of the scheduler, and each law of runs, as the contracts of functions. The functions do nothing.
#![tactic(auto)]

ghost use Rattle.std.specs.Prelude.{ℕ, List};
ghost use Rattle.interface.specs.Lawful.{Lawful};
ghost use Rattle.interface.specs.Meaning.{Meaning};
ghost use Rattle.run_laws.specs.Cases.{CasesHold};
ghost use Rattle.run_laws.specs.Laws.{Promises, RecordLaw, IsolationLaw, ServiceLaw, DepartureLaw, LineLaw, Limits};

// The promises hold over every kind of controller that keeps the interface's laws. The scheduler's calls carry them, each for
// its own controller.
pub fn promises_hold()
    ensures { (m : Meaning (List ℕ)) → Lawful m → Promises m }
{}

// The bus record shows the open takings, and nothing more.
pub fn record_law()
    ensures { RecordLaw }
{}

// What one protected domain submits, no other domain sees.
pub fn isolation_law()
    ensures { IsolationLaw }
{}

// Each protected request that is taken is answered at most once, and in time if the run lasts.
pub fn service_law()
    ensures { ServiceLaw }
{}

// Every vertex leaves, in every round, at the tick that its edges give.
pub fn departure_law()
    ensures { DepartureLaw }
{}

// All lines of a vertex's slot carry the vertex's domain, bank and kind.
pub fn line_law()
    ensures { LineLaw }
{}

// The controller refuses nothing, a tick writes at most 96 lines and 32 notices, and no number passes 10^18.
pub fn limits()
    ensures { Limits }
{}

// The worked cases of refusals, due ticks and rounds have the values that are listed.
pub fn worked_cases()
    ensures { CasesHold }
{}
