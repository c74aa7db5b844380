ghost use Rattle.std.specs.Prelude.{◌≡◌};
ghost use Rattle.wiring.specs.Checks.{wiring_number};
ghost use Rattle.wiring.specs.declared.faults.ProgramFault.TheVariants.{Wiring};
ghost use Rattle.wiring.specs.Programs.{program_number};
ghost use Rattle.wiring.specs.Runs.{run_number};

use kinds::refusal::Refusal;

// What is wrong with a wiring.
#[derive(Clone, Copy, PartialEq, Eq, Debug)]
pub enum WiringFault {
    // No node, or too many.
    NodeCount,
    RegisterCount,
    CoefficientCount,
    // A node that names a node which is not before it, with its number.
    NotEarlier(usize),
    // A node that names a register which is not there.
    NoRegister(usize),
    // A node that names a coefficient which is not there.
    NoCoefficient(usize),
    // The output is no node.
    NoOutput,
    // A register whose source is no node, with its number.
    NoSource(usize),
}

// What is wrong with a wiring and its coefficients.
#[derive(Clone, Copy, PartialEq, Eq, Debug)]
pub enum ProgramFault {
    Wiring(WiringFault),
    // The coefficient list has another length than the wiring says.
    OtherLength,
    // A coefficient that is no word of the format, with its number.
    Coefficient(usize),
}

impl From<WiringFault> for ProgramFault {
    ghost from_gives = { λ e r. r ≡ Wiring e };

    fn from(fault: WiringFault) -> ProgramFault {
        Self::Wiring(fault)
    }
}

// A row that is too short.
#[derive(Clone, Copy, PartialEq, Eq, Debug)]
pub enum RowFault {
    Registers,
    Working,
}

// Why a run was refused.
#[derive(Clone, Copy, PartialEq, Eq, Debug)]
pub enum RunFault {
    Row(RowFault),
    // A node that refused, with its number.
    Node(usize, Refusal),
}

impl WiringFault {
    // The number by which the fault is refused.
    pub fn number(self) -> u32
        ensures { result ≡ wiring_number self }
    {
        match self {
            WiringFault::NodeCount | WiringFault::RegisterCount | WiringFault::CoefficientCount =>
                12,
            WiringFault::NotEarlier(_)
            | WiringFault::NoRegister(_)
            | WiringFault::NoCoefficient(_) => 13,
            WiringFault::NoOutput | WiringFault::NoSource(_) => 14,
        }
    }
}

impl ProgramFault {
    // The number by which the fault is refused.
    pub fn number(self) -> u32
        ensures { result ≡ program_number self }
    {
        match self {
            ProgramFault::Wiring(fault) => fault.number(),
            ProgramFault::OtherLength => 17,
            ProgramFault::Coefficient(_) => 9,
        }
    }
}

impl RunFault {
    // The number by which the run is refused.
    pub fn number(self) -> u32
        ensures { result ≡ run_number self }
    {
        match self {
            RunFault::Row(_) => 15,
            RunFault::Node(_, refusal) => refusal.number(),
        }
    }
}
