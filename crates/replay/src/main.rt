// Reads requests from standard input, one to a line, and prints every Issue and Done of a controller with its step.
// The first argument names the controller: come (also without an argument), turns, pair, or level with a number.
#![tactic(auto)]

use anyhow::anyhow;
use arrivals::{Arrival, admit, drain, read_arrival};
use first_come::FirstCome;
use interface::{Controller, Event, Kind};
use level::Level;
use pair::Pair;
use std::env;
use turns::Turns;

// The steps after which a run is given up.
const STEPS: u64 = 100_000_000;

// The slot of a line is its number, from 0.
const SLOTS: usize = 512;

// The words of this program, which are not the letters that a kind prints itself by.
fn name_of(kind: Kind) -> &'static str {
    match kind {
        Kind::Read => "read",
        Kind::Write => "write",
    }
}

// All lines of standard input, or a message with the number of the first bad one.
fn read_all(rt: &HostRuntime) -> anyhow::Result<Vec<Arrival>> {
    let heap = rt.alloc();
    let mut all: Vec<Arrival> = Vec::new(heap);
    for line in rt.lines(heap) {
        let text = line?;
        let slot = all.len();
        let number = slot + 1;
        if slot >= SLOTS {
            return Err(anyhow!(format!(in heap; "line {number}: more than 512 requests")?));
        }
        match read_arrival(text.as_bytes(), slot as u16) {
            Ok(arrival) => all.push(arrival)?,
            Err(complaint) => {
                return Err(anyhow!(format!(in heap; "line {number}: {complaint}")?));
            }
        }
    }
    Ok(all)
}

// Prints an event of a step; whether a request is done with it.
fn show(rt: &HostRuntime, step: u64, event: Event, arrivals: &[Arrival]) -> anyhow::Result<bool> {
    let (name, slot, done) = match event {
        Event::Issue(slot) => ("issue", slot, false),
        Event::Done(slot) => ("done", slot, true),
    };
    let line = u32::from(slot) + 1;
    if let Some(arrival) = arrivals.get(usize::from(slot)) {
        let kind = name_of(arrival.request.kind);
        let bank = arrival.request.bank;
        println!(rt; "step {step}: {name} of line {line}, a {kind} on bank {bank}")?;
    }
    Ok(done)
}

// Lets a step pass and prints its events; how many requests were done.
fn pass<C: Controller>(
    rt: &HostRuntime,
    controller: &mut C,
    step: u64,
    arrivals: &[Arrival],
) -> anyhow::Result<usize> {
    let mut events = [Event::Issue(0); 64];
    let _ = controller.step();
    let count = drain(controller, &mut events);
    let mut ended: usize = 0;
    for event in events.iter().take(count) {
        if show(rt, step, *event, arrivals)? {
            ended = ended.saturating_add(1);
        }
    }
    Ok(ended)
}

// Takes each request through the controller, until all are done.
fn run<C: Controller>(
    rt: &HostRuntime,
    controller: &mut C,
    arrivals: &[Arrival],
) -> anyhow::Result<()> {
    let mut next = 0;
    let mut ended: usize = 0;
    for step in 0..STEPS {
        if ended >= arrivals.len() {
            return Ok(());
        }
        next = admit(controller, arrivals, next, step);
        ended = ended.saturating_add(pass(rt, controller, step, arrivals)?);
    }
    Err(anyhow!("not finished after 100,000,000 steps"))
}

// Which controller is run. An enum and one arm for each, since every kind of controller is a type of its own.
#[derive(Drop)]
enum Choice {
    Come,
    Turns,
    // first-come for banks 0 to 3, turns for banks 4 to 7
    Pair,
    // level over first-come
    Level(u16),
}

fn chosen(rt: &HostRuntime) -> anyhow::Result<Choice> {
    let mut args = env::args(rt)?;
    let _program = args.next();
    let Some(name) = args.next() else {
        return Ok(Choice::Come);
    };
    match name.as_str() {
        "come" => Ok(Choice::Come),
        "turns" => Ok(Choice::Turns),
        "pair" => Ok(Choice::Pair),
        "level" => match args.next() {
            Some(number) => Ok(Choice::Level(number.parse::<u16>()?)),
            None => Err(anyhow!("level wants a number from 0 to 65,535")),
        },
        _ => Err(anyhow!("the controllers are come, turns, pair and level")),
    }
}

fn replay(rt: &HostRuntime) -> anyhow::Result<()> {
    let heap = rt.alloc();
    let choice = chosen(rt)?;
    let arrivals = read_all(rt)?;
    let arrivals = arrivals.as_slice();
    match choice {
        Choice::Come => run(rt, &mut FirstCome::new(heap)?, arrivals),
        Choice::Turns => run(rt, &mut Turns::new(heap)?, arrivals),
        Choice::Pair => {
            let first = FirstCome::new(heap)?;
            let second = Turns::new(heap)?;
            run(rt, &mut Pair::new(heap, first, second)?, arrivals)
        }
        Choice::Level(delay) => {
            let below = FirstCome::new(heap)?;
            run(rt, &mut Level::new(heap, below, delay)?, arrivals)
        }
    }
}

fn main(rt: HostRuntime) -> anyhow::Result<()> {
    replay(&rt)
}
