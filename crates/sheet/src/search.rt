use crate::figures::SheetFault;
use crate::rounds::{BoundRows, Rounds, ZERO};
use arithmetic::overflow::Overflow;
use arithmetic::rounding::Rounding;
use wiring::limits::MAX_REGISTERS;

impl<R: Rounding, O: Overflow> Rounds<R, O> {
    ghost use Rattle.std.specs.Prelude.{◌≡◌, pos, unsigned_abs};
    ghost use Rattle.sheet.specs.Searching.{SearchAnswer, Settles, FallsTo};

    // Rounds from zero until no source has more than its register's entry: the box in the register row is then the least closed box,
    // and the working row has the round from it. The rows are lent, since an answer that has them would be copied.
    pub(crate) fn close(&self, rows: &mut BoundRows, range: i32) -> Result<(), SheetFault>
        requires { pos (unsigned_abs range) ≡ range }
        ensures { SearchAnswer R.Rounding.rule O.Overflow.rule self.now (unsigned_abs range) result rows.new }
    {
        rows.registers = [ZERO; MAX_REGISTERS];
        loop {
            self.round(rows, range)?;
            if !self.raises(rows) {
                return Ok(());
            }
            self.take_sources(rows);
        }
    }

    // Rounds with input 0 from a closed box until none lowers a peak: how many do. The register row then has the last box,
    // and the working row one more round from it.
    pub(crate) fn settle(&self, rows: &mut BoundRows) -> u64
        requires { Settles R.Rounding.rule O.Overflow.rule self.now rows.old }
        ensures { FallsTo R.Rounding.rule O.Overflow.rule self.now rows.old result rows.new }
    {
        // The count is the answer, and no index.
        let mut count: u64 = 0;
        loop {
            let Ok(()) = self.round(rows, 0) else {
                unreachable()
            };
            if !self.lowers(rows) {
                return count;
            }
            self.take_sources(rows);
            count += 1;
        }
    }
}
