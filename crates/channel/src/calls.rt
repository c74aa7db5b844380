ghost use Rattle.std.specs.Prelude.{◌≡◌, List, length, Ok};
ghost use Rattle.arithmetic.specs.Formats.{width};
ghost use Rattle.wiring.specs.Runs.{answered, or_fault};
ghost use Rattle.channel.specs.Channels.{feed_fault, feed, swap, hush};
ghost use Rattle.channel.specs.Running.{registers_in, nodes_in, graph, state_in, holding, Same, values, answered_to, left_by, row_left, HandsOut, working_left};

use crate::channel::Channel;
use crate::fault::CallFault;
use crate::state::{Event, State};
use crate::telling::{tell, tell_sample};
use arithmetic::overflow::Overflow;
use arithmetic::rounding::Rounding;
use kinds::kind::Kind;
use wiring::faults::ProgramFault;

impl<K: Kind, R: Rounding, O: Overflow> Channel<K, R, O> {
    // Whether a feed's nodes may be worked: refused where a row is too short, or the sample is no word.
    fn check_feed(&self, registers: usize, working: usize, sample: i32) -> Result<(), CallFault>
        ensures { result ≡ or_fault (feed_fault (width self.now.values.setting.format) (graph self.now) registers working sample) (Ok tt) }
    {
        if registers < self.registers() {
            return Err(CallFault::RegisterRow);
        }
        if working < self.nodes() {
            return Err(CallFault::WorkingRow);
        }
        if !self.values.setting.format.holds(sample) {
            return Err(CallFault::Sample);
        }
        Ok(())
    }

    // Works a sample: answers the output, fills the working row, and the registers take their sources together.
    pub fn feed(
        &mut self,
        registers: &mut [K::Value],
        working: &mut [K::Value],
        sample: i32,
    ) -> Result<K::Value, CallFault>
        ensures answer { HandsOut (answered_to K.Kind.model R.Rounding.rule O.Overflow.rule self.old registers.old (feed (length registers.old) (length working.old) sample)) result }
        ensures registers { registers.new ≡ row_left K.Kind.model R.Rounding.rule O.Overflow.rule self.old registers.old (feed (length registers.old) (length working.old) sample) }
        ensures working { working.new ≡ working_left (values K.Kind.model R.Rounding.rule O.Overflow.rule self.old).zero (nodes_in self.old) working.old (answered_to K.Kind.model R.Rounding.rule O.Overflow.rule self.old registers.old (feed (length registers.old) (length working.old) sample)) }
        ensures leaves { holding self.new registers.new ≡ left_by K.Kind.model R.Rounding.rule O.Overflow.rule self.old registers.old (feed (length registers.old) (length working.old) sample) }
        ensures same { Same self.old self.new }
    {
        self.check_feed(registers.len(), working.len(), sample)?;
        // Named, so that what a refused step leaves can be spoken of.
        let stepped = self.program.step(&self.values, registers, working, sample);
        let output = stepped?;
        tell_sample(&mut self.watch, sample);
        Ok(output)
    }

    // Puts in another coefficient list and keeps the registers; the watch lapses.
    pub fn swap(&mut self, coefficients: &[i32]) -> Result<(), CallFault>
        ensures answer { (row : List _) → result ≡ answered (answered_to K.Kind.model R.Rounding.rule O.Overflow.rule self.old row (swap coefficients.now)) }
        ensures leaves { (row : List _) → holding self.new row ≡ left_by K.Kind.model R.Rounding.rule O.Overflow.rule self.old row (swap coefficients.now) }
        ensures same { Same self.old self.new }
    {
        let format = self.values.setting.format;
        let Err(fault) = self.program.put_coefficients(&format, coefficients) else {
            tell(&mut self.watch, Event::Swap);
            return Ok(());
        };
        // Here and not in a From: a list has no wiring that could be at fault.
        match fault {
            ProgramFault::OtherLength => Err(CallFault::OtherLength),
            ProgramFault::Coefficient(i) => Err(CallFault::Coefficient(i)),
            ProgramFault::Wiring(_) => unreachable(),
        }
    }

    // Sets the registers to zero; the watch settles, unless it has lapsed.
    pub fn hush(&mut self, registers: &mut [K::Value]) -> Result<(), CallFault>
        ensures answer { result ≡ answered (answered_to K.Kind.model R.Rounding.rule O.Overflow.rule self.old registers.old (hush (length registers.old))) }
        ensures registers { registers.new ≡ row_left K.Kind.model R.Rounding.rule O.Overflow.rule self.old registers.old (hush (length registers.old)) }
        ensures leaves { holding self.new registers.new ≡ left_by K.Kind.model R.Rounding.rule O.Overflow.rule self.old registers.old (hush (length registers.old)) }
        ensures same { Same self.old self.new }
    {
        self.program.zero_registers(&self.values, registers)?;
        tell(&mut self.watch, Event::Hush);
        Ok(())
    }

    // How many registers its wiring has.
    pub fn registers(&self) -> usize
        ensures { result ≡ registers_in self.now }
    {
        self.program.sources().len()
    }

    // How many nodes its wiring has.
    pub fn nodes(&self) -> usize
        ensures { result ≡ nodes_in self.now }
    {
        self.program.nodes().len()
    }

    // What the watch says, where there is one.
    pub fn watch(&self) -> Option<State>
        ensures { result ≡ state_in self.now.watch }
    {
        self.watch.map(|watch| watch.state)
    }
}
