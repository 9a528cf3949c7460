// The gaps that the card needs between issues.
ghost use Rattle.std.specs.Prelude.{◌≡◌, ◌-◌, map};
ghost use Rattle.first_come.specs.Gaps.{gap, bank_gap, no_gaps, gaps_passed, wait_of, allows, with_issue};

use interface::{Kind, Request};

// The steps until a read, a write, and each bank may be issued to.
#[derive(Clone, Copy)]
pub struct Gaps {
    pub reads: u8,
    pub writes: u8,
    pub banks: [u8; 8],
}

impl Gaps {
    pub fn new() -> Gaps
        ensures { result ≡ no_gaps }
    {
        Gaps {
            reads: 0,
            writes: 0,
            banks: [0; 8],
        }
    }

    // A step passes.
    pub fn pass(&mut self)
        ensures { self.new ≡ gaps_passed self.old }
    {
        self.reads = self.reads.saturating_sub(1);
        self.writes = self.writes.saturating_sub(1);
        pass_banks(&mut self.banks);
    }

    fn wait(&self, kind: Kind) -> u8
        ensures { result ≡ wait_of self.now kind }
    {
        match kind {
            Kind::Read => self.reads,
            Kind::Write => self.writes,
        }
    }

    // Whether the request may be issued now.
    pub fn allow(&self, request: Request) -> bool
        ensures { result ≡ allows self.now request }
    {
        let bank = request.bank as usize % 8;
        self.wait(request.kind) == 0 && self.banks[bank] == 0
    }

    // The request is issued now.
    pub fn note(&mut self, request: Request)
        ensures { self.new ≡ with_issue request self.old }
    {
        let bank = request.bank as usize % 8;
        self.reads = self.reads.max(gap_after(request.kind, Kind::Read));
        self.writes = self.writes.max(gap_after(request.kind, Kind::Write));
        self.banks[bank] = self.banks[bank].max(bank_gap_after(request.kind));
    }
}

// The least steps from an issue of one kind to an issue of another.
fn gap_after(first: Kind, second: Kind) -> u8
    ensures { result ≡ gap first second }
{
    match (first, second) {
        (Kind::Read, Kind::Read) => 5,
        (Kind::Read, Kind::Write) => 9,
        (Kind::Write, Kind::Read) => 18,
        (Kind::Write, Kind::Write) => 5,
    }
}

// The least steps from an issue to the next on the same bank.
fn bank_gap_after(first: Kind) -> u8
    ensures { result ≡ bank_gap first }
{
    match first {
        Kind::Read => 39,
        Kind::Write => 46,
    }
}

fn pass_banks(banks: &mut [u8; 8])
    ensures { banks.new ≡ map (λ n. n - 1) banks.old }
{
    for n in banks.iter_mut() {
        *n = n.saturating_sub(1);
    }
}
