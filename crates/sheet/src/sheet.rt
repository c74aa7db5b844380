ghost use Rattle.std.specs.Prelude.{◌≡◌, length, None, Ok, unsigned_abs};
ghost use Rattle.arithmetic.specs.Formats.{width};
ghost use Rattle.wiring.specs.Graphs.{graph_of};
ghost use Rattle.wiring.specs.Made.{register_count};
ghost use Rattle.wiring.specs.Runs.{or_fault};
ghost use Rattle.sheet.specs.Searching.{rounds_graph, rounds_list, rounds_meaning};
ghost use Rattle.sheet.specs.Calls.{Rows, rows, zero_rows, call_fault, Verdict, SheetAnswer};

use crate::figures::{Figures, SheetFault};
use crate::rounds::{BoundRows, Rounds, ZERO};
use crate::rows::write;
use arithmetic::format::Format;
use arithmetic::overflow::Overflow;
use arithmetic::rounding::Rounding;
use arithmetic::setting::Setting;
use kinds::bounds::BoundKind;
use kinds::values::Values;
use wiring::graph::Filter;
use wiring::limits::{MAX_NODES, MAX_REGISTERS};
use wiring::program::Program;

// A row too short for so many registers, or a range that is no word from 0 up.
fn check_call(
    format: &Format,
    registers: usize,
    peaks: usize,
    ceilings: usize,
    band: usize,
    range: i32,
) -> Result<(), SheetFault>
    ensures { result ≡ or_fault (call_fault (width format.now) registers peaks ceilings band range) (Ok tt) }
{
    if peaks < registers {
        return Err(SheetFault::PeaksRow);
    }
    if ceilings < registers {
        return Err(SheetFault::CeilingsRow);
    }
    if band < registers {
        return Err(SheetFault::BandRow);
    }
    if range < 0 || range as i64 >= format.width().half() {
        return Err(SheetFault::Range);
    }
    Ok(())
}

// The rounds for a checked call: the least closed box into the rows with its band, or zeros where no box is closed.
fn make<R: Rounding, O: Overflow>(
    rounds: &Rounds<R, O>,
    range: i32,
    peaks: &mut [u32],
    ceilings: &mut [u64],
    band: &mut [u32],
) -> Result<Figures, SheetFault>
    requires { call_fault (width rounds.now.values.setting.format) (register_count rounds.now.program) (length peaks.old) (length ceilings.old) (length band.old) range ≡ None }
    ensures { Verdict (rounds_meaning R.Rounding.rule O.Overflow.rule rounds.now) (rounds_graph rounds.now) (rounds_list rounds.now) (unsigned_abs range) (rows peaks.old ceilings.old band.old) (rows peaks.new ceilings.new band.new) result }
{
    let n = rounds.program.sources().len();
    let mut rows = BoundRows {
        registers: [ZERO; MAX_REGISTERS],
        working: [ZERO; MAX_NODES],
    };
    if let Err(fault) = rounds.close(&mut rows, range) {
        peaks[0..n].fill(0);
        ceilings[0..n].fill(0);
        band[0..n].fill(0);
        return Err(fault);
    }
    write(&rows.registers[0..n], |b| b.peak, peaks);
    write(&rows.registers[0..n], |b| b.ceiling, ceilings);
    let output = rounds.output(&rows);
    let count = rounds.settle(&mut rows);
    write(&rows.registers[0..n], |b| b.peak, band);
    Ok(Figures {
        peak: output.peak,
        ceiling: output.ceiling,
        count,
        band: rounds.output(&rows).peak,
    })
}

// The sheet of a filter, for samples from -range to range: the smallest closed box, its figures and its band.
// The rows take the box's peaks, its ceilings and the band's peaks: three slices, each lent by itself, since refusals speak of each.
pub fn sheet<R: Rounding, O: Overflow>(
    setting: &Setting<R, O>,
    filter: Filter,
    range: i32,
    peaks: &mut [u32],
    ceilings: &mut [u64],
    band: &mut [u32],
) -> Result<Figures, SheetFault>
    ensures { SheetAnswer R.Rounding.rule O.Overflow.rule setting.now (graph_of filter.wiring) filter.coefficients.items range (rows peaks.old ceilings.old band.old) (rows peaks.new ceilings.new band.new) result }
{
    let setting = setting.check()?;
    let program = Program::new(&setting.format, filter)?;
    check_call(
        &setting.format,
        program.sources().len(),
        peaks.len(),
        ceilings.len(),
        band.len(),
        range,
    )?;
    let rounds = Rounds {
        values: Values {
            kind: BoundKind,
            setting,
        },
        program,
    };
    make(&rounds, range, peaks, ceilings, band)
}

// The same, over rows of its own, where the figures alone are wanted.
pub fn figures<R: Rounding, O: Overflow>(
    setting: &Setting<R, O>,
    filter: Filter,
    range: i32,
) -> Result<Figures, SheetFault>
    ensures { (after : Rows) × SheetAnswer R.Rounding.rule O.Overflow.rule setting.now (graph_of filter.wiring) filter.coefficients.items range zero_rows after result }
{
    let mut peaks = [0; MAX_REGISTERS];
    let mut ceilings = [0; MAX_REGISTERS];
    let mut band = [0; MAX_REGISTERS];
    sheet(setting, filter, range, &mut peaks, &mut ceilings, &mut band)
}
