// The first-come controller.
ghost use Rattle.std.specs.Prelude.{◌≡◌, ◌≤◌, length, IfOk};
ghost use Rattle.interface.specs.Meaning.{left_of};
ghost use Rattle.first_come.specs.Laws.{IsFirstCome, DoneInTime};
ghost use Rattle.first_come.specs.State.{beginning, issue, first_come_meaning, state_codes};
ghost use Rattle.first_come.specs.Lawfulness.{first_come_laws};
ghost use Rattle.std.proofs.Common.{rules};

use crate::gaps::Gaps;
use held::Table;
use interface::{Controller, CountableSpan, Event, Refusal, Request};
use std::alloc::{AllocError, Global};
use std::marker::Model;

// The steps within which a request is done: 32 times the greatest gap, and the longest delay.
const SPAN: u16 = 1498;

#[derive(Drop)]
pub struct FirstCome {
    table: Table,
    gaps: Gaps,
}

// What a clause sees: the rows of the table, and the gaps.
impl Model for FirstCome {
    ghost use Rattle.first_come.specs.State.{State};

    ghost Value = { State };

    ghost view = { λ c. record { rows = c.table; gaps = c.gaps } };
}

impl FirstCome {
    // A controller in its beginning state, unless memory is wanting. In every history of calls to one, requests are issued in
    // the order of taking, each in the first step that its gaps allow, and are done when their delay has passed.
    pub fn new(heap: Global) -> Result<FirstCome, AllocError>
        ensures made { IfOk result (λ c. c ≡ beginning) }
        ensures first_come { IsFirstCome first_come_meaning }
        ensures done_in_time { DoneInTime first_come_meaning }
    {
        let table = Table::new(heap)?;
        let gaps = Gaps::new();
        Ok(FirstCome { table, gaps })
    }

    // What is known of every such controller, for the proofs of its callers: it does nothing.
    pub fn known(&self)
        ensures { length self.now.rows.entries ≤ 32 }
    {
        self.table.known();
    }

    // The oldest request that waits is issued if the gaps allow.
    fn issue(&mut self)
        ensures { self.new ≡ issue self.old }
    {
        if let Some(request) = self.table.oldest(None) {
            if self.gaps.allow(request) {
                self.table.issue_oldest(None);
                self.gaps.note(request);
            }
        }
    }
}

impl Controller for FirstCome {
    ghost meaning = { first_come_meaning };

    ghost state = { state_codes };

    ghost held = { λ c. first_come_meaning.held (state_codes c) };

    ghost ready = { λ c. first_come_meaning.ready (state_codes c) };

    ghost steps_left = { λ c. left_of (first_come_meaning.held (state_codes c)) };

    ghost lawful = { first_come_laws };

    ghost held_is_read = { Prim.search rules };

    ghost ready_is_read = { Prim.search rules };

    ghost steps_left_is_read = { Prim.search rules };

    fn reset(&mut self) {
        self.table.clear();
        self.gaps = Gaps::new();
    }

    fn places(&self) -> u8 {
        32
    }

    fn take(&mut self, request: Request) -> Result<(), Refusal> {
        self.table.take(request, SPAN)
    }

    fn step(&mut self) -> Result<(), Refusal> {
        self.table.step()?;
        self.gaps.pass();
        self.issue();
        Ok(())
    }

    fn collect(&mut self) -> Option<Event> {
        self.table.collect()
    }
}

impl CountableSpan for FirstCome {
    ghost span_fits = { Prim.search rules };
}
