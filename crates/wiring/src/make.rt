ghost use Rattle.std.specs.Prelude.{◌≡◌, length, Ok};
ghost use Rattle.wiring.specs.Graphs.{graph_of};
ghost use Rattle.arithmetic.specs.Formats.{width};
ghost use Rattle.wiring.specs.Programs.{list_fault};
ghost use Rattle.wiring.specs.Runs.{or_fault};
ghost use Rattle.wiring.specs.Made.{ProgramAnswer, unless_fault};

use crate::check::check_list;
use crate::faults::ProgramFault;
use crate::graph::{Filter, Node};
use crate::program::Program;
use arithmetic::format::Format;

impl Program {
    // The filter, checked: the wiring first, then its coefficients.
    pub fn new(format: &Format, filter: Filter) -> Result<Program, ProgramFault>
        ensures { ProgramAnswer format.now (graph_of filter.wiring) filter.coefficients.items result }
    {
        let Filter {
            wiring,
            coefficients,
        } = filter;
        wiring.check()?;
        check_list(format, wiring.coefficients, &coefficients)?;
        Ok(Program {
            wiring,
            coefficients,
        })
    }

    pub fn nodes(&self) -> &[Node]
        ensures { result.now ≡ (graph_of self.now.wiring).nodes }
    {
        &self.wiring.nodes
    }

    // The number of the output node.
    pub fn output(&self) -> usize
        ensures { result ≡ self.now.wiring.output }
    {
        self.wiring.output
    }

    // For each register, the node whose value it takes.
    pub fn sources(&self) -> &[usize]
        ensures { result.now ≡ (graph_of self.now.wiring).sources }
    {
        &self.wiring.sources
    }

    pub fn coefficients(&self) -> &[i32]
        ensures { result.now ≡ self.now.coefficients.items }
    {
        &self.coefficients
    }

    // Puts in another coefficient list, in the place of the old one; a refused list changes nothing.
    pub fn put_coefficients(
        &mut self,
        format: &Format,
        coefficients: &[i32],
    ) -> Result<(), ProgramFault>
        ensures answer { result ≡ or_fault (list_fault (width format.now) self.old.wiring.coefficients coefficients.now) (Ok tt) }
        ensures list { self.new.coefficients.items ≡ unless_fault (list_fault (width format.now) self.old.wiring.coefficients coefficients.now) coefficients.now self.old.coefficients.items }
        ensures wiring { self.new.wiring ≡ self.old.wiring }
    {
        check_list(format, self.wiring.coefficients, coefficients)?;
        self.coefficients.copy_from_slice(coefficients);
        Ok(())
    }
}
