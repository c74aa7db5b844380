ghost use Rattle.arithmetic.specs.Settings.{SettingAnswer};

use crate::format::{Format, FormatFault};

// A format with a rounding rule and an overflow rule, as a user hands it in: the bits may be any numbers.
#[derive(Clone, Copy)]
pub struct Setting<R, O> {
    pub whole: u32,
    pub fraction: u32,
    pub rounding: R,
    pub overflow: O,
}

// A setting whose format is valid.
#[derive(Clone, Copy)]
pub struct FixedPoint<R, O> {
    pub format: Format,
    pub rounding: R,
    pub overflow: O,
}

impl<R: Copy, O: Copy> Setting<R, O> {
    // The setting with its format checked; refused by the format's fault.
    pub fn check(&self) -> Result<FixedPoint<R, O>, FormatFault>
        ensures { SettingAnswer self.now result }
    {
        let format = Format::new(self.whole, self.fraction)?;
        Ok(FixedPoint {
            format,
            rounding: self.rounding,
            overflow: self.overflow,
        })
    }
}
