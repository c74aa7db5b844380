ghost use Rattle.std.specs.Prelude.{◌≡◌};
ghost use Rattle.channel.specs.Channels.{call_number, told};

use kinds::refusal::Refusal;
use wiring::faults::{RowFault, RunFault};

// Why a call of a channel is refused.
#[derive(Clone, Copy, PartialEq, Eq, Debug)]
pub enum CallFault {
    // The register row is too short.
    RegisterRow,
    // The working row is too short.
    WorkingRow,
    // The sample is no word of the format.
    Sample,
    // A node that refused, with its number.
    Node(usize, Refusal),
    // The coefficient list has another length than the wiring says.
    OtherLength,
    // A coefficient that is no word of the format, with its number.
    Coefficient(usize),
}

// A run's refusal, as a call tells it.
impl From<RunFault> for CallFault {
    ghost from_gives = { λ e r. r ≡ told e };

    fn from(fault: RunFault) -> CallFault {
        match fault {
            RunFault::Node(k, refusal) => CallFault::Node(k, refusal),
            RunFault::Row(RowFault::Registers) => CallFault::RegisterRow,
            RunFault::Row(RowFault::Working) => CallFault::WorkingRow,
        }
    }
}

impl CallFault {
    // The number by which the fault is refused.
    pub fn number(self) -> u32
        ensures { result ≡ call_number self }
    {
        match self {
            CallFault::RegisterRow | CallFault::WorkingRow => 15,
            CallFault::Sample => 16,
            CallFault::Node(_, refusal) => refusal.number(),
            CallFault::OtherLength => 17,
            CallFault::Coefficient(_) => 9,
        }
    }
}
