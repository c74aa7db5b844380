ghost use Rattle.std.specs.Prelude.{◌≡◌, true};
ghost use Rattle.wiring.specs.Graphs.{graph_of};
ghost use Rattle.wiring.specs.Programs.{sound as program_sound};

use crate::graph::Wiring;

// A wiring that was checked, with its coefficients.
#[derive(Drop)]
pub struct Program {
    pub(crate) wiring: Wiring,
    pub(crate) coefficients: Vec<i32>,
    ghost sound: { program_sound (graph_of wiring) coefficients.items ≡ true },
}
