// The controller's events are collected and written.
ghost use Rattle.std.specs.Prelude.{◌≡◌};
ghost use Rattle.interface.specs.Emptied.{emptied};
ghost use Rattle.interface.specs.Meaning.{after, Call};
ghost use Rattle.board.specs.Flights.{heard_board};
ghost use Rattle.store.specs.Written.{Wrote};
ghost use Rattle.scheduler.specs.Hearing.{heard_line, heard_notice, all_heard, heard_lines, heard_notices};

use crate::scheduler::front::Front;
use board::board::Board;
use interface::{Controller, Event};
use model::{Letter, Line, Notice};
use patterns::tick::Tick;
use store::page::Page;
use store::store::Store;

impl<C: Controller> Front<C> {
    // The controller steps once, and is emptied of its events, whose lines and notices are written.
    // Two pages by themselves, since of pages inside a struct a proof does not learn what their buffers hold in the end.
    pub(crate) fn step(
        &mut self,
        store: &Store,
        tick: Tick,
        lines: &mut Page<Line>,
        notices: &mut Page<Notice>,
    )
        ensures controller { C.state self.new.controller ≡ emptied C.meaning (C.meaning.ready (after C.meaning Call.step (C.state self.old.controller))) (after C.meaning Call.step (C.state self.old.controller)) }
        ensures board { self.new.board ≡ all_heard tick (C.meaning.ready (after C.meaning Call.step (C.state self.old.controller))) self.old.board }
        ensures lines { Wrote (heard_lines tick (C.meaning.ready (after C.meaning Call.step (C.state self.old.controller))) self.old.board store.now) lines.old lines.new }
        ensures notices { Wrote (heard_notices tick (C.meaning.ready (after C.meaning Call.step (C.state self.old.controller))) self.old.board store.now) notices.old notices.new }
    {
        let _ = self.controller.step();
        self.hear_all(store, tick, lines, notices);
    }

    // Empties the controller: the lines and the notices of all its events, in order.
    fn hear_all(
        &mut self,
        store: &Store,
        tick: Tick,
        lines: &mut Page<Line>,
        notices: &mut Page<Notice>,
    )
        ensures controller { C.state self.new.controller ≡ emptied C.meaning (C.meaning.ready (C.state self.old.controller)) (C.state self.old.controller) }
        ensures board { self.new.board ≡ all_heard tick (C.meaning.ready (C.state self.old.controller)) self.old.board }
        ensures lines { Wrote (heard_lines tick (C.meaning.ready (C.state self.old.controller)) self.old.board store.now) lines.old lines.new }
        ensures notices { Wrote (heard_notices tick (C.meaning.ready (C.state self.old.controller)) self.old.board store.now) notices.old notices.new }
    {
        while let Some(event) = self.controller.collect() {
            write_line(&self.board, store, tick, event, lines);
            write_notice(&self.board, store, tick, event, notices);
            apply(&mut self.board, tick, event);
        }
    }
}

// The line of an event: I for an Issue, D for a Done.
fn write_line(board: &Board, store: &Store, tick: Tick, event: Event, lines: &mut Page<Line>)
    ensures { Wrote (heard_line tick event board.now store.now) lines.old lines.new }
{
    let (letter, slot) = match event {
        Event::Issue(slot) => (Letter::I, slot),
        Event::Done(slot) => (Letter::D, slot),
    };
    store.write_line(lines, letter, tick.number, board.in_flight(slot));
}

// The notice of a Done, where its request is real.
fn write_notice(board: &Board, store: &Store, tick: Tick, event: Event, notices: &mut Page<Notice>)
    ensures { Wrote (heard_notice tick event board.now store.now) notices.old notices.new }
{
    if let Event::Done(slot) = event {
        store.write_notice(notices, tick.number, board.in_flight(slot));
    }
}

// What an event does to its slot.
fn apply(board: &mut Board, tick: Tick, event: Event)
    ensures { board.new ≡ heard_board tick event board.old }
{
    if let Event::Done(slot) = event {
        board.finish(slot, tick);
    }
}
