ghost use Rattle.std.specs.Prelude.{◌≡◌};
ghost use Rattle.replay.specs.declared.log.ReplayFault.TheVariants.{Open, Memory};

use channel::fault::CallFault;
use channel::opening::OpenFault;
use channel::state::State;
use std::alloc::AllocError;

// A call of a list. Feed and hush say how many places of the row that open set they are lent (at most all of them);
// feed also has its working row, of any length and content, of which it is lent a copy.
#[derive(Drop)]
pub enum Call<V> {
    Feed {
        registers: usize,
        working: Vec<V>,
        sample: i32,
    },
    Swap(Vec<i32>),
    Hush {
        registers: usize,
    },
}

// What a call told: an accepted feed its output and the value of every node; a refused call its fault.
#[derive(Drop)]
pub enum Told<V> {
    // The entry of open itself.
    Opened,
    Fed { output: V, nodes: Vec<V> },
    Swapped,
    Hushed,
    Refused(CallFault),
}

// An entry of the log: the registers and the watch after a call, and what the call told.
#[derive(Drop)]
pub struct Entry<V> {
    pub registers: Vec<V>,
    pub watch: Option<State>,
    pub told: Told<V>,
}

// Why there is no log.
#[derive(Clone, Copy, PartialEq, Eq, Debug)]
pub enum ReplayFault {
    // The channel is not opened.
    Open(OpenFault),
    // There is not memory enough for the log.
    Memory,
}

impl From<OpenFault> for ReplayFault {
    ghost from_gives = { λ e r. r ≡ Open e };

    fn from(fault: OpenFault) -> ReplayFault {
        Self::Open(fault)
    }
}

impl From<AllocError> for ReplayFault {
    ghost from_gives = { λ _ r. r ≡ Memory };

    fn from(_e: AllocError) -> ReplayFault {
        Self::Memory
    }
}
