ghost use Rattle.std.specs.Prelude.{◌≡◌};
ghost use Rattle.sheet.specs.Calls.{sheet_number};

use arithmetic::format::FormatFault;
use kinds::refusal::Refusal;
use wiring::faults::ProgramFault;

// The figures of a granted sheet: of the output, and how many rounds with input 0 lower the box.
#[derive(Clone, Copy, PartialEq, Eq, Debug)]
pub struct Figures {
    // The largest magnitude of an output, in steps.
    pub peak: u32,
    // Its largest distance from the exact output, in ticks (1/4096 of a step).
    pub ceiling: u64,
    // How many rounds with input 0 lower a peak of the box.
    pub count: u64,
    // The largest magnitude of an output that remains after them.
    pub band: u32,
}

// Why there is no sheet.
#[derive(Clone, Copy, PartialEq, Eq, Debug)]
pub enum SheetFault {
    Format(FormatFault),
    Program(ProgramFault),
    // The row for the peaks is too short.
    PeaksRow,
    CeilingsRow,
    BandRow,
    // The range is below 0 or above the largest word.
    Range,
    // No box is closed: the first node that refused in rounds from zero.
    Node(usize, Refusal),
}

impl From<FormatFault> for SheetFault {
    ghost use Rattle.std.specs.Prelude.{◌≡◌};
    ghost use Rattle.sheet.specs.declared.figures.SheetFault.TheVariants.{Format};

    ghost from_gives = { λ e f. f ≡ Format e };

    fn from(fault: FormatFault) -> Self {
        Self::Format(fault)
    }
}

impl From<ProgramFault> for SheetFault {
    ghost use Rattle.std.specs.Prelude.{◌≡◌};
    ghost use Rattle.sheet.specs.declared.figures.SheetFault.TheVariants.{Program};

    ghost from_gives = { λ e f. f ≡ Program e };

    fn from(fault: ProgramFault) -> Self {
        Self::Program(fault)
    }
}

impl SheetFault {
    // The number by which the fault is refused.
    pub fn number(self) -> u32
        ensures { result ≡ sheet_number self }
    {
        match self {
            SheetFault::Format(fault) => fault.number(),
            SheetFault::Program(fault) => fault.number(),
            SheetFault::PeaksRow | SheetFault::CeilingsRow | SheetFault::BandRow => 15,
            SheetFault::Range => 20,
            SheetFault::Node(_, refusal) => refusal.number(),
        }
    }
}
