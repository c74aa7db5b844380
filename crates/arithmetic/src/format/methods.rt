ghost use Rattle.std.specs.Prelude.{◌≡◌, ◌^◌, pos};
ghost use Rattle.arithmetic.specs.Words.{half, quarter, inside};
ghost use Rattle.arithmetic.specs.Formats.{width as word_width, FormatAnswer, CoefficientAnswer, format_number};

use crate::format::{Coefficient, Format, FormatFault, Width};

impl Format {
    // The format with so many whole and fraction bits, where there is one.
    pub fn new(whole: u32, fraction: u32) -> Result<Format, FormatFault>
        ensures { FormatAnswer whole fraction result }
    {
        if whole < 1 {
            return Err(FormatFault::Whole);
        }
        if fraction < 1 {
            return Err(FormatFault::Fraction);
        }
        if whole > 24 || fraction > 24 {
            return Err(FormatFault::Width);
        }
        if whole + fraction < 8 || whole + fraction > 24 {
            return Err(FormatFault::Width);
        }
        Ok(Format { whole, fraction })
    }

    // The bits of a word, sign included.
    pub fn width(&self) -> Width
        ensures { result.bits ≡ word_width self.now }
    {
        Width {
            bits: self.whole + self.fraction,
        }
    }

    // The bits of a word that stand for its whole part, sign included.
    pub fn whole(&self) -> u32
        ensures { result ≡ self.now.whole }
    {
        self.whole
    }

    // The bits of a word that stand for its fraction.
    pub fn fraction(&self) -> u32
        ensures { result ≡ self.now.fraction }
    {
        self.fraction
    }

    // One, in steps: 2^l.
    pub fn unit(&self) -> i64
        ensures { result ≡ pos (2 ^ self.now.fraction) }
    {
        1i64 << self.fraction
    }

    // Whether z is a word of the format.
    pub fn holds(&self, z: i32) -> bool
        ensures { result ≡ inside (word_width self.now) z }
    {
        let half = self.width().half();
        -half <= z as i64 && (z as i64) < half
    }
}

impl Width {
    // How many bits.
    pub fn bits(&self) -> u32
        ensures { result ≡ self.now.bits }
    {
        self.bits
    }

    // Half of the words: 2^(w-1), one more than the largest word.
    pub fn half(&self) -> i64
        ensures { result ≡ pos (half self.now.bits) }
    {
        1i64 << (self.bits - 1)
    }

    // A quarter of the words: 2^(w-2).
    pub fn quarter(&self) -> i32
        ensures { result ≡ pos (quarter self.now.bits) }
    {
        1i32 << (self.bits - 2)
    }
}

impl Coefficient {
    // The coefficient of this value, unless it has more than 24 bits.
    pub fn new(value: i32) -> Option<Coefficient>
        ensures { CoefficientAnswer value result }
    {
        if value.unsigned_abs() > 8388608 {
            return None;
        }
        Some(Coefficient { value })
    }
}

impl FormatFault {
    // The number by which the fault is refused.
    pub fn number(self) -> u32
        ensures { result ≡ format_number self }
    {
        match self {
            FormatFault::Whole | FormatFault::Fraction | FormatFault::Width => 6,
        }
    }
}
