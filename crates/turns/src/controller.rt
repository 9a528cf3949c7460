// The controller by turns.
ghost use Rattle.std.specs.Prelude.{◌≡◌, ◌<◌, ◌≤◌, length, IfOk};
ghost use Rattle.interface.specs.Meaning.{Call, after, refused, first, left_of, take_refusal};
ghost use Rattle.held.specs.Rows.{table_meaning};
ghost use Rattle.turns.specs.State.{beginning, with_rows, whose_turn, issue_in_turn, counted, turns_span, turns_meaning, state_codes};
ghost use Rattle.turns.specs.Laws.{IssuesByTurns, Isolated, DoneInTime};
ghost use Rattle.turns.specs.Lawfulness.{turns_lawful};
ghost use Rattle.std.proofs.Common.{rules, arith};

use held::Table;
use interface::{Controller, CountableSpan, Event, Refusal, Request};
use std::alloc::{AllocError, Global};
use std::marker::Model;

// The steps from one turn to the next.
const TURN: u16 = 46;

// The steps of a round, in which each of the eight domains has a turn.
const ROUND: u16 = 368;

// The steps within which a request is done: 32 rounds, and the longest delay.
const SPAN: u16 = 11802;

// Steps count from 0 after a reset. Every 46 steps the next of the eight domains has its turn, so a round has 368 steps.
#[derive(Drop)]
pub struct Turns {
    table: Table,
    // the number of the next step in its round: the steps since the reset, modulo 368
    step: u16,
}

// What a clause sees: the rows of the table, and the number of the next step.
impl Model for Turns {
    ghost use Rattle.std.specs.Prelude.{◌<◌};
    ghost use Rattle.turns.specs.State.{State};

    ghost Value = { State };

    ghost view = { λ c. record { rows = c.table; step = c.step } };

    ghost invariant = { λ c. c.step < 368 };
}

impl Turns {
    // A controller in its beginning state, unless memory is wanting. In every history of calls to one, the requests of a
    // domain are issued in its turns alone, the oldest first and none later than need be, whatever other domains take, and
    // are done when their delay has passed.
    pub fn new(heap: Global) -> Result<Turns, AllocError>
        ensures made { IfOk result (λ c. c ≡ beginning) }
        ensures by_turns { IssuesByTurns turns_meaning }
        ensures isolated { Isolated turns_meaning }
        ensures done_in_time { DoneInTime turns_meaning }
    {
        Turns::empty(heap)
    }

    // A controller that holds nothing, before its first step.
    fn empty(heap: Global) -> Result<Turns, AllocError>
        ensures { IfOk result (λ c. c ≡ beginning) }
    {
        let table = Table::new(heap)?;
        Ok(Turns { table, step: 0 })
    }

    // What is known of every such controller, for the proofs of its callers: it does nothing.
    pub fn known(&self)
        ensures few { length self.now.rows.entries ≤ 32 }
        ensures round { self.now.step < 368 }
    {
        self.table.known();
    }

    // Holds a request, to be done within 32 rounds and the longest delay.
    fn hold(&mut self, request: Request) -> Result<(), Refusal>
        ensures answer { refused result ≡ take_refusal (table_meaning turns_span) self.old.rows request }
        ensures after { self.new ≡ with_rows self.old (after (table_meaning turns_span) (Call.take request) self.old.rows) }
    {
        self.table.take(request, SPAN)
    }

    // The domain whose turn the next step is.
    fn whose_turn(&self) -> Option<u8>
        ensures { result ≡ whose_turn self.now.step }
    {
        if self.step % TURN == 0 {
            Some((self.step / TURN) as u8)
        } else {
            None
        }
    }

    // In a turn, the domain's oldest request that waits is issued. Then the step is counted.
    fn take_turn(&mut self)
        ensures { self.new ≡ counted (issue_in_turn self.old) }
    {
        if let Some(domain) = self.whose_turn() {
            self.table.issue_oldest(Some(domain));
        }
        self.step = (self.step + 1) % ROUND;
    }

    // Hands out the first ready event.
    fn hand_out(&mut self) -> Option<Event>
        ensures answer { result ≡ first self.old.rows.events }
        ensures after { self.new ≡ with_rows self.old (after (table_meaning turns_span) Call.collect self.old.rows) }
    {
        self.table.collect()
    }
}

impl Controller for Turns {
    ghost meaning = { turns_meaning };

    ghost state = { state_codes };

    ghost held = { λ c. turns_meaning.held (state_codes c) };

    ghost ready = { λ c. turns_meaning.ready (state_codes c) };

    ghost steps_left = { λ c. left_of (turns_meaning.held (state_codes c)) };

    ghost lawful = { turns_lawful };

    ghost held_is_read = { first_of (Prim.search rules, Prim.grind (arith, Self.row.coded.inj)) };

    ghost ready_is_read = { first_of (Prim.search rules, Prim.grind (arith, Self.row.coded.inj)) };

    ghost steps_left_is_read = { first_of (Prim.search rules, Prim.grind (arith, Self.row.coded.inj)) };

    fn reset(&mut self) {
        self.table.clear();
        self.step = 0;
    }

    fn places(&self) -> u8 {
        32
    }

    fn take(&mut self, request: Request) -> Result<(), Refusal> {
        self.hold(request)
    }

    fn step(&mut self) -> Result<(), Refusal> {
        self.table.step()?;
        self.take_turn();
        Ok(())
    }

    fn collect(&mut self) -> Option<Event> {
        self.hand_out()
    }
}

impl CountableSpan for Turns {
    ghost span_fits = { first_of (Prim.search rules, Prim.grind (arith, Self.row.coded.inj)) };
}
