//! Why there is no text.
ghost use Rattle.std.specs.Prelude.{◌≡◌};
ghost use Rattle.arithmetic.specs.Formats.{format_number};
ghost use Rattle.forms.specs.Built.{form_number};
ghost use Rattle.materials.specs.Refusals.{fault_number, number as refusal_number};
ghost use Rattle.console_text.specs.declared.halt.Halt.TheVariants.{Refused, Memory};
ghost use Rattle.console_text.specs.Halts.{halted, unopened};

use arithmetic::format::FormatFault;
use forms::form::FormFault;
use materials::refusal::{RecordFault, Refusal};
use replay::log::ReplayFault;
use std::alloc::AllocError;

/// Why there is no text.
#[derive(Debug, Drop)]
pub enum Halt {
    /// Refused by a number, which is all that the console tells of it.
    Refused(u32),
    /// Memory ran out.
    Memory,
    /// The kind is none of `word`, `enclosed` and `bound`.
    UnknownKind,
}

impl From<Refusal> for Halt {
    ghost from_gives = { λ e r. r ≡ halted (refusal_number e) };

    fn from(refusal: Refusal) -> Halt {
        refusal
            .number()
            .map_or(Halt::Memory, |number| Halt::Refused(u32::from(number)))
    }
}

impl From<RecordFault> for Halt {
    ghost from_gives = { λ e r. r ≡ Refused (fault_number e) };

    fn from(fault: RecordFault) -> Halt {
        Halt::Refused(u32::from(fault.number()))
    }
}

impl From<FormatFault> for Halt {
    ghost from_gives = { λ e r. r ≡ Refused (format_number e) };

    fn from(fault: FormatFault) -> Halt {
        Halt::Refused(fault.number())
    }
}

impl From<FormFault> for Halt {
    ghost from_gives = { λ e r. r ≡ halted (form_number e) };

    fn from(fault: FormFault) -> Halt {
        fault.number().map_or(Halt::Memory, Halt::Refused)
    }
}

impl From<ReplayFault> for Halt {
    ghost from_gives = { λ e r. r ≡ unopened e };

    fn from(fault: ReplayFault) -> Halt {
        match fault {
            ReplayFault::Open(open) => Halt::Refused(open.number()),
            ReplayFault::Memory => Halt::Memory,
        }
    }
}

impl From<AllocError> for Halt {
    ghost from_gives = { λ _ r. r ≡ Memory };

    fn from(_e: AllocError) -> Halt {
        Halt::Memory
    }
}
