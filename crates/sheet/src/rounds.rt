ghost use Rattle.wiring.specs.Graphs.{graph_of};
ghost use Rattle.sheet.specs.Rooms.{Room};

use kinds::bounds::BoundKind;
use kinds::values::{Bound, Values};
use wiring::limits::{MAX_NODES, MAX_REGISTERS};
use wiring::program::Program;

pub(crate) const ZERO: Bound = Bound {
    peak: 0,
    ceiling: 0,
};

// What rounds are worked with: bounds under a checked setting, and a program that has room in the rows.
#[derive(Drop)]
pub(crate) struct Rounds<R, O> {
    pub(crate) values: Values<BoundKind, R, O>,
    pub(crate) program: Program,
    ghost room: { Room (graph_of program.wiring) },
}

// The rows of rounds: a box lies in the first places of the register row, and the nodes' values in those of the working row.
// By a rule of the project a sheet asks for no memory, so the rows are as long as the limits.
// Apart from `Rounds`, since they alone change: so no contract has to say that setting and program stay.
#[derive(Clone, Copy)]
pub(crate) struct BoundRows {
    pub(crate) registers: [Bound; MAX_REGISTERS],
    pub(crate) working: [Bound; MAX_NODES],
}
