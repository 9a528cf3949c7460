// A pair: what it holds, and its calls.
ghost use Rattle.std.specs.Prelude.{◌≡◌, ◌≤◌, length, IfOk};
ghost use Rattle.interface.specs.Meaning.{accepted, refused, step_refusal, left_of};
ghost use Rattle.layer.specs.Contents.{admission};
ghost use Rattle.pair.specs.Laws.{Pairs};
ghost use Rattle.pair.specs.Pair.{beginning, view, to_first, meaning_of, pair_meaning, pair_codes};
ghost use Rattle.pair.specs.Lawfulness.{pair_laws};
ghost use Rattle.std.proofs.Common.{rules};

use interface::{Controller, CountableSpan, Event, Refusal, Request};
use layer::{Forward, Table};
use std::alloc::{AllocError, Global};
use std::marker::Model;

#[derive(Drop)]
pub struct Pair<A, B> {
    // banks 0 to 3
    first: A,
    // banks 4 to 7
    second: B,
    table: Table,
}

// What a clause sees: the table, and both controllers.
impl<A, B> Model for Pair<A, B> {
    ghost use Rattle.pair.specs.Pair.{Parts};

    ghost Value = { Parts A B };

    ghost view = { λ p. record { table = p.table; first = p.first; second = p.second } };
}

// Whether a request goes to the first controller.
fn goes_first(request: Request) -> bool
    ensures { result ≡ to_first request }
{
    request.bank < 4
}

impl<A, B> Pair<A, B> {
    // What is known of every pair, for the proofs of its callers: it does nothing.
    pub fn known(&self)
        ensures { length self.now.table.held ≤ 32 }
    {
        self.table.known();
    }
}

impl<A: CountableSpan + Drop, B: CountableSpan + Drop> Pair<A, B> {
    // A pair of two controllers, which are reset, unless memory is wanting. In every history of calls to it, each request is
    // taken by the controller of its bank, and each event comes in the step in which that controller has it.
    pub fn new(heap: Global, first: A, second: B) -> Result<Pair<A, B>, AllocError>
        ensures made { IfOk result (λ p. view A.Controller.state B.Controller.state p ≡ (meaning_of A.Controller.meaning B.Controller.meaning).start (beginning (A.Controller.state first) (B.Controller.state second))) }
        ensures pairs { Pairs A.Controller.meaning B.Controller.meaning (A.Controller.state first) (B.Controller.state second) }
    {
        let table = Table::new(heap)?;
        Ok(Pair::of(first, second, table))
    }
}

impl<A: Controller + Drop, B: Controller + Drop> Pair<A, B> {
    // A pair with this table, of two controllers, which are reset.
    fn of(first: A, second: B, table: Table) -> Pair<A, B>
        ensures { view A.Controller.state B.Controller.state result ≡ record { table = table; first = A.Controller.meaning.start (A.Controller.state first); second = B.Controller.meaning.start (B.Controller.state second) } }
    {
        let mut pair = Pair {
            first,
            second,
            table,
        };
        pair.first.reset();
        pair.second.reset();
        pair
    }

    // The smaller number of places.
    fn fewest(&self) -> u8
        ensures { result ≡ (meaning_of A.Controller.meaning B.Controller.meaning).places (view A.Controller.state B.Controller.state self.now) }
    {
        self.first.places().min(self.second.places())
    }

    // Holds a request, and has it held by the controller of its bank.
    fn hold(&mut self, request: Request) -> Result<(), Refusal>
        ensures answer { refused result ≡ admission ((meaning_of A.Controller.meaning B.Controller.meaning).places (view A.Controller.state B.Controller.state self.old)) (view A.Controller.state B.Controller.state self.old).table request }
        ensures after { view A.Controller.state B.Controller.state self.new ≡ accepted (refused result) ((meaning_of A.Controller.meaning B.Controller.meaning).taken (view A.Controller.state B.Controller.state self.old) request) (view A.Controller.state B.Controller.state self.old) }
    {
        let places = self.fewest();
        self.table.admit(places, request)?;
        if goes_first(request) {
            let _ = self.first.take(request);
        } else {
            let _ = self.second.take(request);
        }
        Ok(())
    }

    // Lets a tick pass in both: the events of the first come before those of the second.
    fn pass(&mut self) -> Result<(), Refusal>
        ensures answer { refused result ≡ step_refusal (meaning_of A.Controller.meaning B.Controller.meaning) (view A.Controller.state B.Controller.state self.old) }
        ensures after { view A.Controller.state B.Controller.state self.new ≡ accepted (refused result) ((meaning_of A.Controller.meaning B.Controller.meaning).stepped (view A.Controller.state B.Controller.state self.old)) (view A.Controller.state B.Controller.state self.old) }
    {
        if self.table.has_events() {
            return Err(Refusal::EventsReady);
        }
        let _ = self.first.step();
        let _ = self.second.step();
        self.table.gather(Forward::All, &mut self.first);
        self.table.gather(Forward::All, &mut self.second);
        self.table.advance();
        Ok(())
    }

    // Holds nothing, here and below.
    fn clear(&mut self)
        ensures { view A.Controller.state B.Controller.state self.new ≡ (meaning_of A.Controller.meaning B.Controller.meaning).start (view A.Controller.state B.Controller.state self.old) }
    {
        self.table.clear();
        self.first.reset();
        self.second.reset();
    }
}

impl<A: CountableSpan + Drop, B: CountableSpan + Drop> Controller for Pair<A, B> {
    ghost meaning = { pair_meaning A.Controller.meaning B.Controller.meaning };

    ghost state = { λ p. pair_codes (view A.Controller.state B.Controller.state p) };

    ghost held = { λ p. (pair_meaning A.Controller.meaning B.Controller.meaning).held (pair_codes (view A.Controller.state B.Controller.state p)) };

    ghost ready = { λ p. (pair_meaning A.Controller.meaning B.Controller.meaning).ready (pair_codes (view A.Controller.state B.Controller.state p)) };

    ghost steps_left = { λ p. left_of ((pair_meaning A.Controller.meaning B.Controller.meaning).held (pair_codes (view A.Controller.state B.Controller.state p))) };

    ghost lawful = { pair_laws A.Controller.meaning B.Controller.meaning A.Controller.lawful B.Controller.lawful A.CountableSpan.span_fits B.CountableSpan.span_fits };

    ghost held_is_read = { Prim.search rules };

    ghost ready_is_read = { Prim.search rules };

    ghost steps_left_is_read = { Prim.search rules };

    fn reset(&mut self) {
        self.clear();
    }

    fn places(&self) -> u8 {
        self.fewest()
    }

    fn take(&mut self, request: Request) -> Result<(), Refusal> {
        self.hold(request)
    }

    fn step(&mut self) -> Result<(), Refusal> {
        self.pass()
    }

    fn collect(&mut self) -> Option<Event> {
        self.table.collect()
    }
}

impl<A: CountableSpan + Drop, B: CountableSpan + Drop> CountableSpan for Pair<A, B> {
    ghost span_fits = { Prim.search rules };
}
