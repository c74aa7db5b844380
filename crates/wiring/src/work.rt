ghost use Rattle.std.specs.Prelude.{◌≡◌, ◌<◌, ◌++◌, length, drop, replicate, Ok, slice_index_or};
ghost use Rattle.kinds.specs.Kinds.{arithmetic_of, words_of};
ghost use Rattle.wiring.specs.Graphs.{graph_of};
ghost use Rattle.wiring.specs.Runs.{answered, or_fault, row_after, registers_after};
ghost use Rattle.wiring.specs.Made.{program_attempt, node_count, register_count, program_rows_fault, register_row_fault, unless_fault, stepped, registers_stepped};
ghost use Rattle.wiring.specs.Covering.{RunCovers};

use crate::faults::{RowFault, RunFault};
use crate::program::Program;
use crate::run::{clear, work_nodes};
use arithmetic::overflow::Overflow;
use arithmetic::rounding::Rounding;
use kinds::kind::Kind;
use kinds::values::Values;

// The value at place k of a row.
fn fetch<V: Copy>(row: &[V], k: usize) -> V
    requires { k < length row.now }
    ensures { (d : V) → result ≡ slice_index_or row.now k d }
{
    row[k]
}

impl Program {
    // Whether both rows are long enough, the register row first.
    fn check_rows(&self, registers: usize, working: usize) -> Result<(), RunFault>
        ensures { result ≡ or_fault (program_rows_fault self.now registers working) (Ok tt) }
    {
        if registers < self.wiring.sources.len() {
            Err(RunFault::Row(RowFault::Registers))
        } else if working < self.wiring.nodes.len() {
            Err(RunFault::Row(RowFault::Working))
        } else {
            Ok(())
        }
    }

    // Works the wiring on a sample: each node's value goes to its number in the working row. The registers are read, not moved.
    pub fn work<K: Kind, R: Rounding, O: Overflow>(
        &self,
        values: &Values<K, R, O>,
        registers: &[K::Value],
        working: &mut [K::Value],
        sample: i32,
    ) -> Result<(), RunFault>
        ensures answer { result ≡ answered (program_attempt (arithmetic_of K.Kind.model R.Rounding.rule O.Overflow.rule values.now) self.now registers.now working.old sample) }
        ensures row { working.new ≡ row_after (arithmetic_of K.Kind.model R.Rounding.rule O.Overflow.rule values.now).zero (node_count self.now) working.old (program_attempt (arithmetic_of K.Kind.model R.Rounding.rule O.Overflow.rule values.now) self.now registers.now working.old sample) }
        ensures covers { RunCovers (words_of R.Rounding.rule O.Overflow.rule values.now) (K.Kind.model values.now.kind (words_of R.Rounding.rule O.Overflow.rule values.now)) }
    {
        self.check_rows(registers.len(), working.len())?;
        let count = self.wiring.sources.len();
        work_nodes(
            values,
            &self.wiring.nodes,
            &self.coefficients,
            &registers[0..count],
            working,
            sample,
        )
    }

    // All registers take the values of their sources together.
    pub fn take_registers<V: Copy>(
        &self,
        registers: &mut [V],
        working: &[V],
    ) -> Result<(), RunFault>
        ensures answer { result ≡ or_fault (program_rows_fault self.now (length registers.old) (length working.now)) (Ok tt) }
        ensures registers { (d : V) → registers.new ≡ unless_fault (program_rows_fault self.now (length registers.old) (length working.now)) (registers_after d (graph_of self.now.wiring) registers.old working.now) registers.old }
    {
        self.check_rows(registers.len(), working.len())?;
        // By the index: tried `registers.iter_mut().zip(..)`, but no invariant can name the lent row there.
        for (i, source) in self.wiring.sources.iter().enumerate() {
            registers[i] = fetch(working, *source);
        }
        Ok(())
    }

    // Works a sample, lets all registers take their sources together, and answers the output.
    pub fn step<K: Kind, R: Rounding, O: Overflow>(
        &self,
        values: &Values<K, R, O>,
        registers: &mut [K::Value],
        working: &mut [K::Value],
        sample: i32,
    ) -> Result<K::Value, RunFault>
        ensures answer { result ≡ stepped (arithmetic_of K.Kind.model R.Rounding.rule O.Overflow.rule values.now).zero (graph_of self.now.wiring) working.new (program_attempt (arithmetic_of K.Kind.model R.Rounding.rule O.Overflow.rule values.now) self.now registers.old working.old sample) }
        ensures row { working.new ≡ row_after (arithmetic_of K.Kind.model R.Rounding.rule O.Overflow.rule values.now).zero (node_count self.now) working.old (program_attempt (arithmetic_of K.Kind.model R.Rounding.rule O.Overflow.rule values.now) self.now registers.old working.old sample) }
        ensures registers { registers.new ≡ registers_stepped (arithmetic_of K.Kind.model R.Rounding.rule O.Overflow.rule values.now).zero (graph_of self.now.wiring) registers.old working.new (program_attempt (arithmetic_of K.Kind.model R.Rounding.rule O.Overflow.rule values.now) self.now registers.old working.old sample) }
    {
        self.work(values, registers, working, sample)?;
        self.take_registers(registers, working)?;
        Ok(working[self.output()])
    }

    // Zeros in all registers.
    pub fn zero_registers<K: Kind, R: Rounding, O: Overflow>(
        &self,
        values: &Values<K, R, O>,
        registers: &mut [K::Value],
    ) -> Result<(), RunFault>
        ensures answer { result ≡ or_fault (register_row_fault self.now (length registers.old)) (Ok tt) }
        ensures registers { registers.new ≡ unless_fault (register_row_fault self.now (length registers.old)) (replicate (register_count self.now) (arithmetic_of K.Kind.model R.Rounding.rule O.Overflow.rule values.now).zero ++ drop (register_count self.now) registers.old) registers.old }
    {
        let count = self.wiring.sources.len();
        if registers.len() < count {
            return Err(RunFault::Row(RowFault::Registers));
        }
        clear(values, registers, count);
        Ok(())
    }
}
