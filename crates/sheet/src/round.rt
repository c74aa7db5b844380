use crate::figures::SheetFault;
use crate::rounds::{BoundRows, Rounds};
use arithmetic::overflow::Overflow;
use arithmetic::rounding::Rounding;
use kinds::values::Bound;
use wiring::faults::RunFault;

impl<R: Rounding, O: Overflow> Rounds<R, O> {
    ghost use Rattle.std.specs.Prelude.{◌≡◌, ℕ, ◌<◌, true, false, MatchBool};
    ghost use Rattle.wiring.specs.Lists.{Each₂};
    ghost use Rattle.wiring.specs.Made.{register_count};
    ghost use Rattle.wiring.specs.Runs.{registers_after};
    ghost use Rattle.sheet.specs.Sheets.{Below};
    ghost use Rattle.sheet.specs.Searching.{none, Raised, Lowered, NotLowered, rounds_graph, held_box, made_box, made_output, AtRegister, RoundAnswer};

    // One round: the wiring worked over bounds from the box in the register row; each node's value goes to its number in the working row.
    pub(crate) fn round(&self, rows: &mut BoundRows, sample: i32) -> Result<(), SheetFault>
        ensures { RoundAnswer R.Rounding.rule O.Overflow.rule self.now sample rows.old result rows.new }
    {
        match self
            .program
            .work(&self.values, &rows.registers, &mut rows.working, sample)
        {
            // Here and not in a From: a short row cannot be, and is no fault of a sheet.
            Ok(()) => Ok(()),
            Err(RunFault::Node(k, refusal)) => Err(SheetFault::Node(k, refusal)),
            Err(RunFault::Row(_)) => unreachable(),
        }
    }

    // All registers take their sources together.
    pub(crate) fn take_sources(&self, rows: &mut BoundRows)
        ensures { rows.new ≡ record rows.old { registers = registers_after none (rounds_graph self.now) rows.old.registers rows.old.working } }
    {
        let Ok(()) = self
            .program
            .take_registers(&mut rows.registers, &rows.working)
        else {
            unreachable()
        };
    }

    // What the last round gave at the output.
    pub(crate) fn output(&self, rows: &BoundRows) -> Bound
        ensures { result ≡ made_output self.now rows.now }
    {
        rows.working[self.program.output()]
    }

    // Whether a source's value and its register's entry pass the test.
    fn some_source<F: Fn(Bound, Bound) -> bool>(&self, rows: &BoundRows, test: F) -> bool
        requires { F.IsAlwaysCallable test }
        ensures { MatchBool result
            ((i : ℕ) × (i < register_count self.now.program) × AtRegister self.now rows.now (λ v e. F.post test v e true) i)
            ((i : ℕ) → i < register_count self.now.program → AtRegister self.now rows.now (λ v e. F.post test v e false) i) }
    {
        // A loop and not `any`: in its closure nothing would bound the place of a source.
        for (source, entry) in self.program.sources().iter().zip(&rows.registers) {
            if test(rows.working[*source], *entry) {
                return true;
            }
        }
        false
    }

    // Whether a source has more than its register's entry, as peak or as ceiling.
    pub(crate) fn raises(&self, rows: &BoundRows) -> bool
        ensures { MatchBool result (Raised (held_box self.now rows.now) (made_box self.now rows.now)) (Each₂ Below (made_box self.now rows.now) (held_box self.now rows.now)) }
    {
        self.some_source(rows, |value, entry| {
            value.peak > entry.peak || value.ceiling > entry.ceiling
        })
    }

    // Whether a source has a smaller peak than its register's entry.
    pub(crate) fn lowers(&self, rows: &BoundRows) -> bool
        ensures { MatchBool result (Lowered (held_box self.now rows.now) (made_box self.now rows.now)) (Each₂ NotLowered (held_box self.now rows.now) (made_box self.now rows.now)) }
    {
        self.some_source(rows, |value, entry| value.peak < entry.peak)
    }
}
