ghost use Rattle.std.specs.Prelude.{◌≡◌};
ghost use Rattle.arithmetic.specs.Formats.{format_number};
ghost use Rattle.wiring.specs.Programs.{program_number};
ghost use Rattle.forms.specs.Built.{form_number};
ghost use Rattle.walkthrough.specs.declared.halt.Halt.TheVariants.{Refused, Memory, Print};
ghost use Rattle.materials.specs.Refusals.{fault_number, number as refusal_number, record_number};
ghost use Rattle.walkthrough.specs.Halts.{halted, halted_run, halted_file};

use arithmetic::format::FormatFault;
use forms::form::FormFault;
use materials::refusal::{RecordFault, Refusal};
use std::alloc::AllocError;
use std::{fmt, io};
use wiring::faults::{ProgramFault, RunFault};

// Why the walk stopped before its end.
#[derive(Drop)]
pub enum Halt {
    // Refused by a number. Numbers, and not the faults, are what specs/ says of a halt and what is printed.
    Refused(u32),
    // Refused by a number at a node.
    AtNode(u32, usize),
    // Refused by a number in a record of the file.
    InRecord(u32, usize),
    // Memory ran out.
    Memory,
    // A line could not be printed.
    Print(io::Error),
}

impl fmt::Display for Halt {
    fn fmt<W: fmt::Write>(&self, f: &mut fmt::Formatter<W>) -> fmt::Result {
        match self {
            Halt::Refused(number) => write!(f, "refused by {number}"),
            Halt::AtNode(number, node) => write!(f, "refused by {number} at node {node}"),
            Halt::InRecord(number, record) => write!(f, "refused by {number} in record {record}"),
            Halt::Memory => f.write_str("memory ran out"),
            Halt::Print(e) => write!(f, "{e}"),
        }
    }
}

impl From<FormatFault> for Halt {
    ghost from_gives = { λ e r. r ≡ Refused (format_number e) };

    fn from(fault: FormatFault) -> Halt {
        Halt::Refused(fault.number())
    }
}

impl From<FormFault> for Halt {
    ghost from_gives = { λ e r. r ≡ halted (form_number e) };

    fn from(fault: FormFault) -> Halt {
        fault.number().map_or(Halt::Memory, Halt::Refused)
    }
}

impl From<Refusal> for Halt {
    ghost from_gives = { λ e r. r ≡ halted_file (refusal_number e) (record_number e) };

    fn from(refusal: Refusal) -> Halt {
        match (refusal.number(), refusal.record()) {
            (Some(number), Some(record)) => Halt::InRecord(u32::from(number), record),
            (Some(number), None) => Halt::Refused(u32::from(number)),
            (None, _) => Halt::Memory,
        }
    }
}

impl From<RecordFault> for Halt {
    ghost from_gives = { λ e r. r ≡ Refused (fault_number e) };

    fn from(fault: RecordFault) -> Halt {
        Halt::Refused(u32::from(fault.number()))
    }
}

impl From<ProgramFault> for Halt {
    ghost from_gives = { λ e r. r ≡ Refused (program_number e) };

    fn from(fault: ProgramFault) -> Halt {
        Halt::Refused(fault.number())
    }
}

impl From<RunFault> for Halt {
    ghost from_gives = { λ e r. r ≡ halted_run e };

    fn from(fault: RunFault) -> Halt {
        match fault {
            RunFault::Node(node, refusal) => Halt::AtNode(refusal.number(), node),
            RunFault::Row(_) => Halt::Refused(fault.number()),
        }
    }
}

impl From<AllocError> for Halt {
    ghost from_gives = { λ _ r. r ≡ Memory };

    fn from(_e: AllocError) -> Halt {
        Halt::Memory
    }
}

impl From<io::Error> for Halt {
    ghost from_gives = { λ e r. r ≡ Print e };

    fn from(e: io::Error) -> Halt {
        Halt::Print(e)
    }
}
