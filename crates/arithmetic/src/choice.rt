// Rules that are chosen at run time, as a file's letters choose them.
ghost use Rattle.arithmetic.specs.Choices.{rounding_rule, overflow_rule};
ghost use Rattle.arithmetic.specs.declared.choice.RoundingChoice.TheVariants.{Floor, Nearest, TowardZero};
ghost use Rattle.arithmetic.specs.RuleLaws.{floor_lawful, nearest_lawful, toward_zero_lawful, wrap_lawful, saturate_lawful, stop_lawful};
ghost use Rattle.arithmetic.specs.declared.choice.OverflowChoice.TheVariants.{Wrap, Saturate, Stop};

use crate::format::{Format, Width};
use crate::overflow::{Overflow, Saturate, Stop, Wrap};
use crate::rounding::{Floor, Nearest, Rounding, TowardZero};

// One of the three rounding rules. An enum and not a dyn, since a file's reader could not make a dyn and hand it out.
#[derive(Clone, Copy, PartialEq, Eq, Debug)]
pub enum RoundingChoice {
    Floor,
    Nearest,
    TowardZero,
}

impl Rounding for RoundingChoice {
    ghost rule = { rounding_rule };

    ghost lawful = { elim [
      | Floor ↦ floor_lawful
      | Nearest ↦ nearest_lawful
      | TowardZero ↦ toward_zero_lawful
    ] };

    fn divide(&self, p: i64, format: &Format) -> (i64, i64) {
        match *self {
            RoundingChoice::Floor => Floor.divide(p, format),
            RoundingChoice::Nearest => Nearest.divide(p, format),
            RoundingChoice::TowardZero => TowardZero.divide(p, format),
        }
    }

    fn share(&self) -> u64 {
        match *self {
            RoundingChoice::Floor => Floor.share(),
            RoundingChoice::Nearest => Nearest.share(),
            RoundingChoice::TowardZero => TowardZero.share(),
        }
    }

    fn reach(&self, m: u64, format: &Format) -> u64 {
        match *self {
            RoundingChoice::Floor => Floor.reach(m, format),
            RoundingChoice::Nearest => Nearest.reach(m, format),
            RoundingChoice::TowardZero => TowardZero.reach(m, format),
        }
    }
}

// One of the three overflow rules, as an enum for the same reason.
#[derive(Clone, Copy, PartialEq, Eq, Debug)]
pub enum OverflowChoice {
    Wrap,
    Saturate,
    Stop,
}

impl Overflow for OverflowChoice {
    ghost rule = { overflow_rule };

    ghost lawful = { elim [ Wrap ↦ wrap_lawful | Saturate ↦ saturate_lawful | Stop ↦ stop_lawful ] };

    fn store(&self, raw: i64, width: Width) -> Option<i32> {
        match *self {
            OverflowChoice::Wrap => Wrap.store(raw, width),
            OverflowChoice::Saturate => Saturate.store(raw, width),
            OverflowChoice::Stop => Stop.store(raw, width),
        }
    }
}
