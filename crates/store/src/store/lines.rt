// The lines and notices of requests, and the requests that leave for them.
ghost use Rattle.std.specs.Prelude.{◌≡◌, [], ◌∷◌};
ghost use Rattle.model.specs.Ticks.{row_of};
ghost use Rattle.model.specs.declared.Letter.TheVariants.{T as taken_letter};
ghost use Rattle.store.specs.Written.{Wrote};
ghost use Rattle.store.specs.Lines.{line_with, flight_line, flight_notice, load_for, loaded, all_loaded, load_lines};

use crate::page::Page;
use crate::store::Store;
use interface::Request;
use model::{Letter, Line, Notice, Payload};

impl Store {
    // The line of a request in flight, if there is one.
    pub fn write_line(
        &self,
        lines: &mut Page<Line>,
        letter: Letter,
        tick: u64,
        flight: Option<Request>,
    )
        ensures { Wrote (flight_line letter tick self.now flight) lines.old lines.new }
    {
        if let Some(request) = flight {
            let payload = self.payload(request.slot as usize);
            lines.write(line(letter, tick, request, payload));
        }
    }

    // The notice of a request in flight, unless it is a fake.
    pub fn write_notice(&self, notices: &mut Page<Notice>, tick: u64, flight: Option<Request>)
        ensures { Wrote (flight_notice tick self.now flight) notices.old notices.new }
    {
        if let Some(request) = flight {
            if let Some(real) = self.payload(request.slot as usize) {
                notices.write(Notice {
                    tick,
                    domain: request.domain,
                    serial: real.serial,
                });
            }
        }
    }

    // The oldest request that fits goes with each that leaves, else a fake, and its T line is written.
    pub fn load(&mut self, tick: u64, requests: &[Request], lines: &mut Page<Line>)
        ensures after { self.new ≡ all_loaded requests.now self.old }
        ensures lines { Wrote (load_lines tick requests.now self.old) lines.old lines.new }
    {
        for request in requests {
            self.load_one(tick, *request, lines);
        }
    }

    fn load_one(&mut self, tick: u64, request: Request, lines: &mut Page<Line>)
        ensures after { self.new ≡ loaded request self.old }
        ensures lines { Wrote (line_with taken_letter tick request (load_for request self.old) ∷ []) lines.old lines.new }
    {
        let payload = self.leave(request.domain as usize, request.access());
        self.carry(request.slot as usize, payload);
        lines.write(line(Letter::T, tick, request, payload));
    }
}

fn line(letter: Letter, tick: u64, request: Request, payload: Payload) -> Line
    ensures { result ≡ line_with letter tick request payload }
{
    Line {
        letter,
        tick,
        domain: request.domain,
        slot: request.slot,
        bank: request.bank,
        kind: request.kind,
        row: row(payload),
    }
}

// A fake has row 0.
fn row(payload: Payload) -> u16
    ensures { result ≡ row_of payload }
{
    payload.map_or(0, |real| real.row)
}
