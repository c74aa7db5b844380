ghost use Rattle.std.specs.Prelude.{◌≡◌, ◌≤◌, length};
ghost use Rattle.wiring.specs.Graphs.{graph_of};
ghost use Rattle.wiring.specs.Made.{register_count};
ghost use Rattle.channel.specs.declared.opening.OpenFault.TheVariants.{Format as BadFormat, Program as BadProgram};
ghost use Rattle.channel.specs.Opening.{open_number, Checked, Fresh, Makes, OpenAnswer, opened_row, made_row};

use crate::channel::Channel;
use crate::state::{Limits, State, Watch};
use arithmetic::format::FormatFault;
use arithmetic::overflow::Overflow;
use arithmetic::rounding::Rounding;
use arithmetic::setting::{FixedPoint, Setting};
use kinds::kind::Kind;
use kinds::values::Values;
use wiring::faults::ProgramFault;
use wiring::graph::Filter;
use wiring::program::Program;

// Why a channel is not opened.
#[derive(Clone, Copy, PartialEq, Eq, Debug)]
pub enum OpenFault {
    Format(FormatFault),
    Program(ProgramFault),
    // The register row is too short.
    RegisterRow,
}

impl OpenFault {
    // The number by which the fault is refused.
    pub fn number(self) -> u32
        ensures { result ≡ open_number self }
    {
        match self {
            OpenFault::Format(fault) => fault.number(),
            OpenFault::Program(fault) => fault.number(),
            OpenFault::RegisterRow => 15,
        }
    }
}

impl From<FormatFault> for OpenFault {
    ghost from_gives = { λ e r. r ≡ BadFormat e };

    fn from(fault: FormatFault) -> OpenFault {
        Self::Format(fault)
    }
}

impl From<ProgramFault> for OpenFault {
    ghost from_gives = { λ e r. r ≡ BadProgram e };

    fn from(fault: ProgramFault) -> OpenFault {
        Self::Program(fault)
    }
}

// The check, which may refuse: the format, the wiring, the coefficients, then the length of the register row.
fn check<R: Rounding, O: Overflow>(
    setting: &Setting<R, O>,
    filter: Filter,
    row: usize,
) -> Result<(FixedPoint<R, O>, Program), OpenFault>
    ensures { Checked setting.now (graph_of filter.wiring) filter.coefficients.items row result }
{
    let fixed = setting.check()?;
    let program = Program::new(&fixed.format, filter)?;
    if row < program.sources().len() {
        return Err(OpenFault::RegisterRow);
    }
    Ok((fixed, program))
}

// A settled watch with these limits, or none.
fn first_watch(limits: Option<Limits>) -> Option<Watch>
    ensures { Fresh limits result }
{
    limits.map(|limits| Watch {
        limits,
        state: State::Settled,
    })
}

// The making, which cannot refuse: zeros in the registers, and a settled watch where there are limits.
fn make<K: Kind, R: Rounding, O: Overflow>(
    values: Values<K, R, O>,
    program: Program,
    registers: &mut [K::Value],
    limits: Option<Limits>,
) -> Channel<K, R, O>
    requires { register_count program ≤ length registers.old }
    ensures channel { Makes values program limits result }
    ensures registers { registers.new ≡ made_row K.Kind.model R.Rounding.rule O.Overflow.rule result registers.old }
{
    let Ok(()) = program.zero_registers(&values, registers) else {
        unreachable()
    };
    Channel {
        values,
        program,
        watch: first_watch(limits),
    }
}

impl<K: Kind + Drop, R: Rounding, O: Overflow> Channel<K, R, O> {
    // Opens a channel and sets its registers to zero. A refusal leaves the row as it was.
    pub fn open(
        kind: K,
        setting: &Setting<R, O>,
        filter: Filter,
        registers: &mut [K::Value],
        limits: Option<Limits>,
    ) -> Result<Channel<K, R, O>, OpenFault>
        ensures answer { OpenAnswer kind setting.now (graph_of filter.wiring) filter.coefficients.items (length registers.old) limits result }
        ensures registers { registers.new ≡ opened_row K.Kind.model R.Rounding.rule O.Overflow.rule registers.old result }
    {
        let (setting, program) = check(setting, filter, registers.len())?;
        Ok(make(Values { kind, setting }, program, registers, limits))
    }
}
