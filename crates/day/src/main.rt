// A short day of a card that four groups share, from the setting to the last tick. Prints the answer of every submit, and
// the lines and notices of every tick.
#![tactic(auto)]

mod plan;

use anyhow::anyhow;
use first_come::FirstCome;
use interface::Kind;
use model::{Letter, Line, Notice, Refusal};
use plan::{FIRST, SETTINGS, SUBMITS, Submit, TICKS};
use scheduler::call::{Answer, Call};
use scheduler::scheduler::Scheduler;
use std::alloc::{AllocError, Global};

const BLANK_LINE: Line = Line {
    letter: Letter::T,
    tick: 0,
    domain: 0,
    slot: 0,
    bank: 0,
    kind: Kind::Read,
    row: 0,
};

const BLANK_NOTICE: Notice = Notice {
    tick: 0,
    domain: 0,
    serial: 0,
};

// A scheduler, and the buffers that its ticks write to.
#[derive(Drop)]
struct Day {
    scheduler: Scheduler<FirstCome>,
    lines: Vec<Line>,
    notices: Vec<Notice>,
}

impl Day {
    fn new(heap: Global) -> Result<Day, AllocError> {
        Ok(Day {
            scheduler: Scheduler::new(heap, FirstCome::new(heap)?)?,
            lines: vec![in heap; BLANK_LINE; 96]?,
            notices: vec![in heap; BLANK_NOTICE; 32]?,
        })
    }

    fn call(&mut self, call: Call) -> Result<Answer, Refusal> {
        self.scheduler.call(call, self.lines.as_mut_slice(), self.notices.as_mut_slice())
    }

    // Makes a setting call or begin, which has to be accepted.
    fn set(&mut self, rt: &HostRuntime, call: Call) -> anyhow::Result<()> {
        match self.call(call) {
            Ok(_) => Ok(()),
            Err(refusal) => Err(refused(rt, "a setting", refusal)?),
        }
    }

    // Makes a submit, and prints its serial or why it is refused.
    fn submit(&mut self, rt: &HostRuntime, planned: &Submit) -> anyhow::Result<()> {
        let domain = planned.domain;
        match self.call(Call::Submit(domain, planned.bank, planned.kind, planned.row)) {
            Ok(Answer::Taken(serial)) => println!(rt; "(taken {domain} (serial {serial}))")?,
            Ok(_) => return Err(anyhow!("a submit has no serial")),
            Err(refusal) => {
                let number = refusal.number();
                println!(rt; "(refused {domain} (number {number}))")?;
            }
        }
        Ok(())
    }

    // Makes the submits that come right before a tick.
    fn submit_before(&mut self, rt: &HostRuntime, tick: u64) -> anyhow::Result<()> {
        for planned in &SUBMITS {
            if planned.tick == tick {
                self.submit(rt, planned)?;
            }
        }
        Ok(())
    }

    // Prints the first lines and the first notices of the buffers.
    fn show(&self, rt: &HostRuntime, lines: usize, notices: usize) -> anyhow::Result<()> {
        for line in self.lines.iter().take(lines) {
            println!(rt; "{line}")?;
        }
        for notice in self.notices.iter().take(notices) {
            println!(rt; "{notice}")?;
        }
        Ok(())
    }

    // Lets a tick pass, and prints what it wrote.
    fn pass(&mut self, rt: &HostRuntime) -> anyhow::Result<()> {
        match self.call(Call::Tick) {
            Ok(Answer::Ticked(lines, notices)) => self.show(rt, lines, notices),
            Ok(_) => Err(anyhow!("a tick has no counts")),
            Err(refusal) => Err(refused(rt, "a tick", refusal)?),
        }
    }
}

// The error where a call that has to be accepted is refused.
fn refused(rt: &HostRuntime, call: &str, refusal: Refusal) -> Result<anyhow::Error, AllocError> {
    let number = refusal.number();
    Ok(anyhow!(format!(in rt.alloc(); "{call} is refused with {number}")?))
}

fn run(rt: &HostRuntime) -> anyhow::Result<()> {
    let mut day = Day::new(rt.alloc())?;
    for setting in &SETTINGS {
        day.set(rt, *setting)?;
    }
    day.submit_before(rt, FIRST - 1)?;
    day.set(rt, Call::Begin)?;
    for tick in FIRST..FIRST + TICKS {
        day.submit_before(rt, tick)?;
        day.pass(rt)?;
    }
    Ok(())
}

fn main(rt: HostRuntime) -> anyhow::Result<()> {
    run(&rt)
}
