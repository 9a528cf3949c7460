// Submits.
ghost use Rattle.std.specs.Prelude.{◌≡◌};
ghost use Rattle.model.specs.Refusals.{refused};
ghost use Rattle.model.specs.Calls.{outcome};
ghost use Rattle.model.specs.Calls.{submit as submit_call};
ghost use Rattle.scheduler.specs.Schedulers.{view, serial_reply};
ghost use Rattle.scheduler.specs.Submits.{submit_checks, side_checks, turn_at, held_check, queue_checks};

use crate::scheduler::Scheduler;
use board::board::Board;
use interface::{Access, Controller, Kind, Request};
use model::{Real, Refusal};
use store::store::Store;

impl<C: Controller> Scheduler<C> {
    // A request of a domain: its serial.
    pub fn submit(&mut self, domain: u64, bank: u64, kind: Kind, row: u64) -> Result<u64, Refusal>
        ensures answer { serial_reply result ≡ (outcome C.meaning (view C.state self.old) (submit_call domain bank kind row)).reply }
        ensures after { view C.state self.new ≡ (outcome C.meaning (view C.state self.old) (submit_call domain bank kind row)).after }
    {
        if self.tick.is_none() {
            return Err(Refusal::WrongPhase);
        }
        self.front.board.known();
        self.store.known();
        check_submit(&self.front.board, &self.store, domain, bank, kind, row)?;
        let place = domain as usize;
        let access = Access {
            bank: bank as u8,
            kind,
        };
        let serial = self.store.serial(place);
        match self.front.board.slot_in_turn(place, serial) {
            Some(slot) => {
                self.front.send(Request {
                    slot: slot as u16,
                    domain: domain as u8,
                    bank: access.bank,
                    kind: access.kind,
                });
                self.store.carry(
                    slot,
                    Some(Real {
                        row: row as u16,
                        serial,
                    }),
                );
                self.store.count(place);
            }
            None => self.store.join(place, access, row as u16),
        }
        Ok(serial)
    }
}

// Checks a submit to a scheduler that has begun.
fn check_submit(
    board: &Board,
    store: &Store,
    domain: u64,
    bank: u64,
    kind: Kind,
    row: u64,
) -> Result<(), Refusal>
    ensures { refused result ≡ submit_checks board.now store.now domain bank kind row }
{
    let place = domain as usize;
    if board.is_unset(place) {
        return Err(Refusal::DomainUnset);
    }
    if bank > 7 {
        return Err(Refusal::RequestBank);
    }
    if row < 1 || row > 65_535 {
        return Err(Refusal::BadRow);
    }
    if store.serial(place) >= 1_000_000_000_000_000_000 {
        return Err(Refusal::LastSerial);
    }
    check_side(
        board,
        store,
        place,
        Access {
            bank: bank as u8,
            kind,
        },
    )
}

// Checks the request of an open or of a protected domain.
fn check_side(board: &Board, store: &Store, domain: usize, access: Access) -> Result<(), Refusal>
    ensures { refused result ≡ side_checks board.now store.now domain access.bank access.kind (turn_at board.now store.now domain) }
{
    match board.slot_in_turn(domain, store.serial(domain)) {
        Some(slot) => check_slot(board, slot),
        None => check_queue(board, store, domain, access),
    }
}

// The slot whose turn it is must be free.
fn check_slot(board: &Board, slot: usize) -> Result<(), Refusal>
    ensures { refused result ≡ held_check board.now slot }
{
    if !board.is_free(slot) {
        return Err(Refusal::SlotHeld);
    }
    Ok(())
}

// Some vertex must have the request's bank and kind, and fewer than 16 wait.
fn check_queue(board: &Board, store: &Store, domain: usize, access: Access) -> Result<(), Refusal>
    ensures { refused result ≡ queue_checks board.now store.now domain access.bank access.kind }
{
    if !board.serves(domain, access) {
        return Err(Refusal::NoVertex);
    }
    if store.waiting(domain) >= 16 {
        return Err(Refusal::QueueFull);
    }
    Ok(())
}
