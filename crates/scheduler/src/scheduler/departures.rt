// The controller takes what leaves. Rows, serials and fakes are out of sight here.
ghost use Rattle.std.specs.Prelude.{◌≡◌};
ghost use Rattle.interface.specs.Meaning.{after, Call};
ghost use Rattle.patterns.specs.declared.vertex.VertexEvent.TheVariants.{Due};
ghost use Rattle.board.specs.Slots.{held};
ghost use Rattle.board.specs.Boards.{with_slot, advanced_board, renewed_board};
ghost use Rattle.board.specs.Leaving.{board_leaving, departed_board};
ghost use Rattle.scheduler.specs.Hearing.{taken_by};

use crate::scheduler::front::Front;
use board::board::Board;
use board::departures::Departures;
use interface::{Controller, Request};

impl<C: Controller> Front<C> {
    // The controller takes an open request, which holds its slot.
    pub(crate) fn send(&mut self, request: Request)
        ensures board { self.new.board ≡ with_slot request.slot (held request.bank request.kind) self.old.board }
        ensures controller { C.state self.new.controller ≡ after C.meaning (Call.take request) (C.state self.old.controller) }
    {
        self.board.hold(request.slot as usize, request.access());
        let _ = self.controller.take(request);
    }

    // The controller takes the request of a vertex, which flies.
    fn depart(&mut self, leaving: Request)
        ensures board { self.new.board ≡ advanced_board Due leaving.slot self.old.board }
        ensures controller { C.state self.new.controller ≡ after C.meaning (Call.take leaving) (C.state self.old.controller) }
    {
        self.board.depart(leaving.slot);
        let _ = self.controller.take(leaving);
    }

    // The controller takes the requests of all vertices that leave, in order.
    pub(crate) fn depart_all(&mut self, requests: &[Request])
        ensures board { self.new.board ≡ departed_board requests.now self.old.board }
        ensures controller { C.state self.new.controller ≡ taken_by C.meaning requests.now (C.state self.old.controller) }
    {
        for request in requests {
            self.depart(*request);
        }
    }
}

// Lanes whose vertices are all done begin their next round, and those who leave then are listed.
pub(crate) fn prepare(board: &mut Board, departures: &mut Departures, tick: u64)
    ensures board { board.new ≡ renewed_board board.old }
    ensures list { departures.new ≡ board_leaving tick (renewed_board board.old) }
{
    board.renew();
    departures.fill(board, tick);
}
