// A level: what it holds, and its calls.
ghost use Rattle.std.specs.Prelude.{◌≡◌, ◌≤◌, length, IfOk};
ghost use Rattle.interface.specs.Meaning.{accepted, refused, step_refusal, left_of};
ghost use Rattle.layer.specs.Contents.{admission};
ghost use Rattle.level.specs.Laws.{Levels};
ghost use Rattle.level.specs.Level.{beginning, view, meaning_over, level_meaning, level_codes};
ghost use Rattle.level.specs.Lawfulness.{level_laws};
ghost use Rattle.std.proofs.Common.{rules};

use interface::{Controller, CountableSpan, Event, Refusal, Request};
use layer::{Forward, Table};
use std::alloc::{AllocError, Global};
use std::marker::Model;

#[derive(Drop)]
pub struct Level<C> {
    below: C,
    delay: u16,
    table: Table,
}

// What a clause sees: the number, the table, and the controller below.
impl<C> Model for Level<C> {
    ghost use Rattle.level.specs.Level.{Parts};

    ghost Value = { Parts C };

    ghost view = { λ l. record { delay = l.delay; table = l.table; below = l.below } };
}

impl<C> Level<C> {
    // What is known of every level, for the proofs of its callers: it does nothing.
    pub fn known(&self)
        ensures { length self.now.table.held ≤ 32 }
    {
        self.table.known();
    }
}

impl<C: CountableSpan + Drop> Level<C> {
    // A level over `below`, which is reset, with the number `delay`, unless memory is wanting. In every history of calls to
    // it, Issues come as below, and each Done in the L-th step after its taking, or with the Done below, if that is later.
    pub fn new(heap: Global, below: C, delay: u16) -> Result<Level<C>, AllocError>
        ensures made { IfOk result (λ l. view C.Controller.state l ≡ (meaning_over C.Controller.meaning).start (beginning delay (C.Controller.state below))) }
        ensures levels { Levels C.Controller.meaning delay (C.Controller.state below) }
    {
        let table = Table::new(heap)?;
        Ok(Level::over(below, delay, table))
    }
}

impl<C: Controller + Drop> Level<C> {
    // A level with this table over `below`, which is reset.
    fn over(below: C, delay: u16, table: Table) -> Level<C>
        ensures { view C.state result ≡ record { delay = delay; table = table; below = C.meaning.start (C.state below) } }
    {
        let mut level = Level {
            below,
            delay,
            table,
        };
        level.below.reset();
        level
    }

    // Holds a request, and has it held below.
    fn hold(&mut self, request: Request) -> Result<(), Refusal>
        ensures answer { refused result ≡ admission ((meaning_over C.meaning).places (view C.state self.old)) (view C.state self.old).table request }
        ensures after { view C.state self.new ≡ accepted (refused result) ((meaning_over C.meaning).taken (view C.state self.old) request) (view C.state self.old) }
    {
        self.table.admit(self.below.places(), request)?;
        let _ = self.below.take(request);
        Ok(())
    }

    // Lets a tick pass: the Issues from below come first, and then the Dones that are due.
    fn pass(&mut self) -> Result<(), Refusal>
        ensures answer { refused result ≡ step_refusal (meaning_over C.meaning) (view C.state self.old) }
        ensures after { view C.state self.new ≡ accepted (refused result) ((meaning_over C.meaning).stepped (view C.state self.old)) (view C.state self.old) }
    {
        if self.table.has_events() {
            return Err(Refusal::EventsReady);
        }
        let _ = self.below.step();
        self.table.gather(Forward::Issues, &mut self.below);
        self.table.advance();
        self.table.release(self.delay);
        Ok(())
    }

    // Holds nothing, here and below.
    fn clear(&mut self)
        ensures { view C.state self.new ≡ (meaning_over C.meaning).start (view C.state self.old) }
    {
        self.table.clear();
        self.below.reset();
    }
}

impl<C: CountableSpan + Drop> Controller for Level<C> {
    ghost meaning = { level_meaning C.Controller.meaning };

    ghost state = { λ l. level_codes (view C.Controller.state l) };

    ghost held = { λ l. (level_meaning C.Controller.meaning).held (level_codes (view C.Controller.state l)) };

    ghost ready = { λ l. (level_meaning C.Controller.meaning).ready (level_codes (view C.Controller.state l)) };

    ghost steps_left = { λ l. left_of ((level_meaning C.Controller.meaning).held (level_codes (view C.Controller.state l))) };

    ghost lawful = { level_laws C.Controller.meaning C.Controller.lawful C.CountableSpan.span_fits };

    ghost held_is_read = { Prim.search rules };

    ghost ready_is_read = { Prim.search rules };

    ghost steps_left_is_read = { Prim.search rules };

    fn reset(&mut self) {
        self.clear();
    }

    fn places(&self) -> u8 {
        self.below.places()
    }

    fn take(&mut self, request: Request) -> Result<(), Refusal> {
        self.hold(request)
    }

    fn step(&mut self) -> Result<(), Refusal> {
        self.pass()
    }

    fn collect(&mut self) -> Option<Event> {
        self.table.collect()
    }
}

impl<C: CountableSpan + Drop> CountableSpan for Level<C> {
    ghost span_fits = { Prim.search rules };
}
