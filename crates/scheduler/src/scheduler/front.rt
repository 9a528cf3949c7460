// What is in sight where a request is handed to the controller.
use board::board::Board;

// The controller, and the public side of the tables. No row, no serial and no mark of a fake is here.
#[derive(Drop)]
pub(crate) struct Front<C> {
    pub(crate) controller: C,
    pub(crate) board: Board,
}
