// The tally of a run: how many T, I and D lines there were, and the report of it.
#![tactic(auto)]

ghost use Rattle.std.specs.Prelude.{◌≡◌, IfOk, string_bytes};
ghost use Rattle.tally.specs.Counts.{counted, sum_of, number, refused, feed_refusal, fed, none, closed, report_text, CountsLines};

use model::{Letter, Line};
use std::alloc::{AllocError, Global};

// Why a feed is refused, with the number by which each refusal is known.
#[derive(Clone, Copy, PartialEq, Eq, Debug)]
pub enum Refusal {
    // a count would pass 10^18
    CountLimit = 21,
}

impl Refusal {
    pub fn number(self) -> u8
        ensures { result ≡ number self }
    {
        self as u8
    }
}

// How many lines of each letter.
#[derive(Clone, Copy)]
struct Counts {
    taken: u64,
    issued: u64,
    done: u64,
}

const LIMIT: u64 = 1_000_000_000_000_000_000;

fn count(lines: &[Line]) -> Counts
    ensures { result ≡ counted lines.now }
{
    let mut taken = 0;
    let mut issued = 0;
    let mut done = 0;
    // One loop, since a chain of filters would walk the lines once for each letter.
    for line in lines {
        match line.letter {
            Letter::T => taken += 1,
            Letter::I => issued += 1,
            Letter::D => done += 1,
        }
    }
    Counts {
        taken,
        issued,
        done,
    }
}

fn sum(count: u64, more: u64) -> Result<u64, Refusal>
    ensures { result ≡ sum_of count more }
{
    count
        .checked_add(more)
        .filter(|total| *total <= LIMIT)
        .ok_or(Refusal::CountLimit)
}

// Counts the lines of the ticks that it is fed, until it is closed.
#[derive(Drop)]
pub struct Tally {
    counts: Counts,
}

impl Tally {
    // A tally that has counted nothing. After any feeds each count is the number of its lines in those that were accepted.
    #[tactic(auto, using(crate::proofs::Feeding::counts_lines))]
    pub fn new() -> Tally
        ensures value { result ≡ none }
        ensures law { CountsLines }
    {
        Tally {
            counts: Counts {
                taken: 0,
                issued: 0,
                done: 0,
            },
        }
    }

    // Counts the lines of one tick; where a count would pass the limit, counts nothing.
    pub fn feed(&mut self, lines: &[Line]) -> Result<(), Refusal>
        ensures answer { refused result ≡ feed_refusal self.old lines.now }
        ensures after { self.new ≡ fed self.old lines.now }
    {
        let more = count(lines);
        let taken = sum(self.counts.taken, more.taken)?;
        let issued = sum(self.counts.issued, more.issued)?;
        let done = sum(self.counts.done, more.done)?;
        self.counts = Counts {
            taken,
            issued,
            done,
        };
        Ok(())
    }

    // Ends the counting. A closed tally is gone: it takes no more lines.
    pub fn close(self) -> Report
        ensures { result ≡ closed self }
    {
        let Tally { counts } = self;
        Report { counts }
    }
}

// The counts of a closed tally.
#[derive(Drop)]
pub struct Report {
    counts: Counts,
}

impl Report {
    // The report's line. It uses the report up, so that there is no second print.
    pub fn print(self, heap: Global) -> Result<String, AllocError>
        ensures { IfOk result (λ s. string_bytes s ≡ report_text self) }
    {
        let Report { counts } = self;
        let taken = counts.taken;
        let issued = counts.issued;
        let done = counts.done;
        format!(in heap; "(report (T {taken}) (I {issued}) (D {done}))")
    }
}
