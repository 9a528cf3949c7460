// A new scheduler, the setting calls, and begin.
ghost use Rattle.std.specs.Prelude.{◌≡◌, IfOk, None};
ghost use Rattle.interface.specs.Meaning.{check};
ghost use Rattle.model.specs.Calls.{outcome, sets, begins, opens, lane, setting_refusal};
ghost use Rattle.model.specs.Calls.{first as first_setting};
ghost use Rattle.model.specs.Calls.{new as new_state};
ghost use Rattle.model.specs.Refusals.{refused};
ghost use Rattle.board.specs.Boards.{settings_of, set_with, started_board};
ghost use Rattle.scheduler.specs.Schedulers.{view, replied, has_begun};

use crate::scheduler::Scheduler;
use crate::scheduler::front::Front;
use board::board::Board;
use board::departures::Departures;
use interface::Controller;
use model::Refusal;
use patterns::setting::{EdgeSetting, LaneSetting, VertexSetting};
use std::alloc::{AllocError, Global};
use store::store::Store;

impl<C: Controller> Scheduler<C> {
    // A new scheduler resets its controller. All memory is taken here.
    pub fn new(heap: Global, controller: C) -> Result<Scheduler<C>, AllocError>
    where
        C: Drop,
        ensures { IfOk result (λ s. view C.state s ≡ new_state C.meaning (C.state controller)) }
    {
        let board = Board::new(heap)?;
        let store = Store::new(heap)?;
        let departures = Departures::new(heap)?;
        Ok(Scheduler {
            front: Front {
                controller: restarted(controller),
                board,
            },
            store,
            departures,
            tick: None,
        })
    }

    // Opens a domain with a share.
    pub fn open(&mut self, domain: u64, share: u64) -> Result<(), Refusal>
        ensures answer { replied result ≡ (outcome C.meaning (view C.state self.old) (sets (opens domain share))).reply }
        ensures after { view C.state self.new ≡ (outcome C.meaning (view C.state self.old) (sets (opens domain share))).after }
    {
        self.check_setting()?;
        self.front.open(domain, share)
    }

    // Adds a lane to a domain, which is protected from then on.
    pub fn lane(
        &mut self,
        domain: u64,
        vertices: &[VertexSetting],
        edges: &[EdgeSetting],
        rest: u64,
    ) -> Result<(), Refusal>
        ensures answer { replied result ≡ (outcome C.meaning (view C.state self.old) (sets (lane domain vertices.now edges.now rest))).reply }
        ensures after { view C.state self.new ≡ (outcome C.meaning (view C.state self.old) (sets (lane domain vertices.now edges.now rest))).after }
    {
        self.check_setting()?;
        self.front.board.known();
        self.front.add_lane(
            domain,
            LaneSetting {
                vertices,
                edges,
                rest,
            },
        )
    }

    // Sets the first tick's number, which is 0 otherwise.
    pub fn first(&mut self, number: u64) -> Result<(), Refusal>
        ensures answer { replied result ≡ (outcome C.meaning (view C.state self.old) (sets (first_setting number))).reply }
        ensures after { view C.state self.new ≡ (outcome C.meaning (view C.state self.old) (sets (first_setting number))).after }
    {
        self.check_setting()?;
        self.front.board.set_first(number)
    }

    // Ends the setting.
    pub fn begin(&mut self) -> Result<(), Refusal>
        ensures answer { replied result ≡ (outcome C.meaning (view C.state self.old) begins).reply }
        ensures after { view C.state self.new ≡ (outcome C.meaning (view C.state self.old) begins).after }
    {
        self.check_setting()?;
        self.tick = Some(start(&mut self.front.board));
        Ok(())
    }

    // Nothing is set once the run has begun.
    fn check_setting(&self) -> Result<(), Refusal>
        ensures { refused result ≡ check (has_begun self.now) 1 None }
    {
        if self.tick.is_some() {
            return Err(Refusal::WrongPhase);
        }
        Ok(())
    }
}

// The controller in its beginning state.
fn restarted<C: Controller>(controller: C) -> C
    ensures { C.state result ≡ C.meaning.start (C.state controller) }
{
    let mut controller = controller;
    controller.reset();
    controller
}

impl<C: Controller> Front<C> {
    // Opens a domain, over a controller that has so many places.
    fn open(&mut self, domain: u64, share: u64) -> Result<(), Refusal>
        ensures answer { refused result ≡ setting_refusal (C.meaning.places (C.state self.old.controller)) (settings_of self.old.board) (opens domain share) }
        ensures after { self.new.board ≡ set_with (C.meaning.places (C.state self.old.controller)) (opens domain share) self.old.board }
        ensures same { C.state self.new.controller ≡ C.state self.old.controller }
    {
        let places = self.controller.places();
        self.board.open(domain, share, places)
    }

    // Adds a lane, over a controller that has so many places.
    fn add_lane(&mut self, domain: u64, setting: LaneSetting) -> Result<(), Refusal>
        ensures answer { refused result ≡ setting_refusal (C.meaning.places (C.state self.old.controller)) (settings_of self.old.board) (lane domain setting.entry.vertices.now setting.entry.edges.now setting.entry.rest) }
        ensures after { self.new.board ≡ set_with (C.meaning.places (C.state self.old.controller)) (lane domain setting.entry.vertices.now setting.entry.edges.now setting.entry.rest) self.old.board }
        ensures same { C.state self.new.controller ≡ C.state self.old.controller }
    {
        let places = self.controller.places();
        self.board.add_lane(domain, setting, places)
    }
}

// Every lane starts at the first tick, whose number is answered.
fn start(board: &mut Board) -> u64
    ensures value { result ≡ board.new.first }
    ensures after { board.new ≡ started_board board.old }
{
    board.start();
    board.first()
}
