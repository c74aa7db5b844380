//! A record in memory.
ghost use Rattle.std.specs.Prelude.{◌≡◌};
ghost use Rattle.std.specs.Str.{bytes_eq};
ghost use Rattle.materials.specs.Layout.{meaning};
ghost use Rattle.materials.specs.Lists.{called};
ghost use Rattle.materials.specs.Records.{ChoicesFound, FormatFound, setting_in};

use crate::fields::{choices_of, format_of};
use crate::letters::Choices;
use crate::refusal::RecordFault;
use arithmetic::choice::{OverflowChoice, RoundingChoice};
use arithmetic::format::Format;
use arithmetic::setting::Setting;

/// A record in memory. Nothing about it has been checked.
#[derive(Debug, Drop)]
pub struct Record {
    /// The name's bytes.
    pub name: Vec<u8>,
    /// The letter of the form.
    pub form: char,
    /// The letter of the rounding rule.
    pub rounding: char,
    /// The letter of the overflow rule.
    pub overflow: char,
    /// Whole bits of a word, sign included.
    pub whole_bits: u8,
    /// Fraction bits of a word.
    pub fraction_bits: u8,
    /// The coefficients of the input and its past, b0 first.
    pub feedforward: Vec<i32>,
    /// The coefficients of the past outputs, a1 first.
    pub feedback: Vec<i32>,
}

impl Record {
    // Whether this is its name.
    pub(crate) fn is_called(&self, name: &[u8]) -> bool
        ensures { result ≡ bytes_eq (called self.now) name.now }
    {
        self.name.as_slice() == name
    }

    /// What its letters stand for, or the first that stands for nothing.
    pub fn choices(&self) -> Result<Choices, RecordFault>
        ensures { ChoicesFound self.now.form self.now.rounding self.now.overflow result }
    {
        choices_of(self.form, self.rounding, self.overflow)
    }

    /// Its format, or the first thing that is wrong with it.
    pub fn format(&self) -> Result<Format, RecordFault>
        ensures { FormatFound self.now.whole_bits self.now.fraction_bits result }
    {
        format_of(self.whole_bits, self.fraction_bits)
    }

    /// Its setting, with the rules that its letters chose; the bits are not checked.
    pub fn setting(&self, choices: Choices) -> Setting<RoundingChoice, OverflowChoice>
        ensures { result ≡ setting_in (meaning self.now) choices }
    {
        Setting {
            whole: u32::from(self.whole_bits),
            fraction: u32::from(self.fraction_bits),
            rounding: choices.rounding,
            overflow: choices.overflow,
        }
    }
}
