//! What the schedule tells of one material.
ghost use Rattle.std.specs.Prelude.{Some};

use sheet::figures::Figures;
use std::fmt;

/// What the schedule tells of one material.
#[derive(Clone, Copy)]
pub enum Outcome {
    /// It has a sheet, with these figures.
    Fits(Figures),
    /// It has none: the number of the refusal, which is all that the schedule tells of it, and the node that refused.
    NoSheet { number: u32, node: usize },
}

/// What follows the name in the line of a material.
impl fmt::Display for Outcome {
    ghost use Rattle.schedule_text.specs.Lines.{fields_of};

    ghost output = { λ o. Some (fields_of o) };

    fn fmt<W: fmt::Write>(&self, f: &mut fmt::Formatter<W>) -> fmt::Result {
        match self {
            Outcome::Fits(figures) => {
                let peak = figures.peak;
                let ceiling = figures.ceiling;
                let count = figures.count;
                let band = figures.band;
                writeln!(f, "\tfits\t{peak}\t{ceiling}\t{count}\t{band}")
            }
            Outcome::NoSheet { number, node } => writeln!(f, "\tnone\t{number}\t{node}"),
        }
    }
}
