// Any call of a run, with what is promised of all runs.
ghost use Rattle.std.specs.Prelude.{◌≡◌, ℕ, List, length};
ghost use Rattle.model.specs.Calls.{outcome};
ghost use Rattle.model.specs.Calls.{Call as ModelCall};
ghost use Rattle.model.specs.Calls.{new as new_state};
ghost use Rattle.run_laws.specs.Laws.{Promises};
ghost use Rattle.run_laws.specs.Runs.{notices_in, state_after};
ghost use Rattle.store.specs.Pages.{filled};
ghost use Rattle.scheduler.specs.Histories.{made_call, told, seen, Extends};
ghost use Rattle.scheduler.specs.Schedulers.{view, replied, serial_reply, tick_told, told_of, lines_in};

use crate::call::{Answer, Call};
use crate::scheduler::Scheduler;
use interface::Controller;
use model::{Line, Notice, Refusal};

impl<C: Controller> Scheduler<C> {
    // Makes one call of a run. The buffers are for the lines and notices of a tick; any other call leaves them as they are.
    //
    // After any calls since `new`, this call is the next of their run, and its answer and what it wrote are that run's; and
    // of all runs over such controllers the promises hold.
    pub fn call(
        &mut self,
        call: Call,
        lines: &mut [Line],
        notices: &mut [Notice],
    ) -> Result<Answer, Refusal>
        ensures answer { told result ≡ told_of (length lines.old) (length notices.old) (outcome C.meaning (view C.state self.old) (made_call (length lines.old) (length notices.old) call.entry)).reply }
        ensures after { view C.state self.new ≡ (outcome C.meaning (view C.state self.old) (made_call (length lines.old) (length notices.old) call.entry)).after }
        ensures lines { lines.new ≡ filled (lines_in (outcome C.meaning (view C.state self.old) (made_call (length lines.old) (length notices.old) call.entry)).reply) lines.old }
        ensures notices { notices.new ≡ filled (notices_in (outcome C.meaning (view C.state self.old) (made_call (length lines.old) (length notices.old) call.entry)).reply) notices.old }
        ensures history { (b : List ℕ) (cs : List ModelCall) → view C.state self.old ≡ state_after C.meaning (new_state C.meaning b) cs → Extends C.meaning b cs (made_call (length lines.old) (length notices.old) call.entry) (view C.state self.new) (seen result lines.new notices.new) }
        ensures promises { Promises C.meaning }
    {
        self.perform(call, lines, notices)
    }

    fn perform(
        &mut self,
        call: Call,
        lines: &mut [Line],
        notices: &mut [Notice],
    ) -> Result<Answer, Refusal>
        ensures answer { told result ≡ told_of (length lines.old) (length notices.old) (outcome C.meaning (view C.state self.old) (made_call (length lines.old) (length notices.old) call.entry)).reply }
        ensures after { view C.state self.new ≡ (outcome C.meaning (view C.state self.old) (made_call (length lines.old) (length notices.old) call.entry)).after }
        ensures lines { lines.new ≡ filled (lines_in (outcome C.meaning (view C.state self.old) (made_call (length lines.old) (length notices.old) call.entry)).reply) lines.old }
        ensures notices { notices.new ≡ filled (notices_in (outcome C.meaning (view C.state self.old) (made_call (length lines.old) (length notices.old) call.entry)).reply) notices.old }
    {
        match call {
            Call::Open(domain, share) => self.open(domain, share).map(|()| Answer::Accepted),
            Call::Lane(domain, setting) => self
                .lane(domain, setting.vertices, setting.edges, setting.rest)
                .map(|()| Answer::Accepted),
            Call::First(number) => self.first(number).map(|()| Answer::Accepted),
            Call::Begin => self.begin().map(|()| Answer::Accepted),
            Call::Submit(domain, bank, kind, row) => self
                .submit(domain, bank, kind, row)
                .map(Answer::Taken),
            Call::Tick => self
                .tick(lines, notices)
                .map(|(written, told)| Answer::Ticked(written, told)),
        }
    }
}
