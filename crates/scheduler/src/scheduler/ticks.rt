// Ticks.
ghost use Rattle.std.specs.Prelude.{◌≡◌, true, length, IfOk};
ghost use Rattle.std.specs.Option.{is_some, unwrap_or};
ghost use Rattle.model.specs.Refusals.{refused};
ghost use Rattle.model.specs.Ticks.{lines as bus_lines};
ghost use Rattle.model.specs.Ticks.{notices as bus_notices};
ghost use Rattle.model.specs.Calls.{outcome, ticked};
ghost use Rattle.model.specs.Calls.{ticks as tick_call};
ghost use Rattle.run_laws.specs.Runs.{notices_in};
ghost use Rattle.board.specs.Boards.{settings_of};
ghost use Rattle.store.specs.Pages.{filled};
ghost use Rattle.store.specs.Written.{Wrote};
ghost use Rattle.scheduler.specs.Admits.{tick_checks};
ghost use Rattle.scheduler.specs.Schedulers.{view, has_begun, running_at, tick_told, told_of, lines_in};
ghost use Rattle.scheduler.specs.Views.{tables_of, running_of};

use crate::scheduler::Scheduler;
use crate::scheduler::departures::prepare;
use interface::Controller;
use model::{Line, Notice, Refusal};
use patterns::tick::Tick;
use store::page::Page;

impl<C: Controller> Scheduler<C> {
    // One tick: how many lines and notices it wrote. What lies beyond the counts in both buffers stays.
    pub fn tick(
        &mut self,
        lines: &mut [Line],
        notices: &mut [Notice],
    ) -> Result<(usize, usize), Refusal>
        ensures answer { tick_told result ≡ told_of (length lines.old) (length notices.old) (outcome C.meaning (view C.state self.old) (tick_call (length lines.old) (length notices.old))).reply }
        ensures after { view C.state self.new ≡ (outcome C.meaning (view C.state self.old) (tick_call (length lines.old) (length notices.old))).after }
        ensures lines { lines.new ≡ filled (lines_in (outcome C.meaning (view C.state self.old) (tick_call (length lines.old) (length notices.old))).reply) lines.old }
        ensures notices { notices.new ≡ filled (notices_in (outcome C.meaning (view C.state self.old) (tick_call (length lines.old) (length notices.old))).reply) notices.old }
    {
        let tick = admitted(self.tick, lines.len(), notices.len())?;
        let mut lines = Page::new(lines);
        let mut notices = Page::new(notices);
        self.pass(tick, &mut lines, &mut notices);
        Ok((lines.written(), notices.written()))
    }

    // An accepted tick: the controller steps and is emptied, lanes get their next start, and what is due leaves.
    fn pass(&mut self, tick: Tick, lines: &mut Page<Line>, notices: &mut Page<Notice>)
        ensures begun { has_begun self.new ≡ true }
        ensures settings { settings_of self.new.board ≡ settings_of self.old.board }
        ensures running { running_at C.state self.new ≡ ticked C.meaning (settings_of self.old.board) (running_of tick.number (C.state self.old.controller) self.old.board self.old.store) }
        ensures lines { Wrote (bus_lines C.meaning (settings_of self.old.board) tick.number (C.state self.old.controller) (tables_of self.old.board self.old.store)) lines.old lines.new }
        ensures notices { Wrote (bus_notices C.meaning (settings_of self.old.board) tick.number (C.state self.old.controller) (tables_of self.old.board self.old.store)) notices.old notices.new }
    {
        self.front.board.known();
        self.store.known();
        self.front.step(&self.store, tick, lines, notices);
        prepare(&mut self.front.board, &mut self.departures, tick.number);
        self.front.depart_all(self.departures.requests());
        self.store
            .load(tick.number, self.departures.requests(), lines);
        self.tick = Some(tick.number + 1);
    }
}

// The tick with the next number, if the run has begun, unless it is refused, with buffers for so many lines and notices.
fn admitted(next: Option<u64>, lines: usize, notices: usize) -> Result<Tick, Refusal>
    ensures refusal { refused result ≡ tick_checks (is_some next) (unwrap_or next 0) lines notices }
    ensures value { IfOk result (λ t. t.number ≡ unwrap_or next 0) }
{
    let number = next.ok_or(Refusal::WrongPhase)?;
    if lines < 96 || notices < 32 {
        return Err(Refusal::SmallBuffer);
    }
    if number >= 1_000_000_000_000_000_000 {
        return Err(Refusal::LastTick);
    }
    Tick::new(number).ok_or(Refusal::LastTick)
}
