ghost use Rattle.std.specs.Prelude.{◌≡◌, ◌≤◌};
ghost use Rattle.arithmetic.specs.Rounding.{RoundingRule, LawfulRounding, divided, remainder, floor, nearest, toward_zero};
ghost use Rattle.arithmetic.specs.RuleLaws.{floor_lawful, nearest_lawful, toward_zero_lawful};

use crate::format::Format;

// A way to divide a whole number by 2^l, l the fraction bits of a format.
pub trait Rounding: Copy {
    // The rule's functions.
    ghost rule: { Self → RoundingRule };

    // The quotient of p over 2^l, and the remainder p - 2^l × q.
    fn divide(&self, p: i64, format: &Format) -> (i64, i64)
        ensures { result ≡ divided (rule self.now) format.now.fraction p };

    // In ticks, 1/4096 of a step: the most that one division errs by.
    fn share(&self) -> u64
        ensures { result ≡ (rule self.now).share };

    // The largest magnitude of a quotient of numbers up to m in magnitude.
    fn reach(&self, m: u64, format: &Format) -> u64
        ensures { result ≡ (rule self.now).reach format.now.fraction m };

    // They keep the laws of a rounding rule.
    ghost lawful: { (r : Self) → LawfulRounding (rule r) };
}

// What a division down by 2^l leaves over of p: 0 to 2^l - 1.
pub(crate) fn left_over(p: i64, l: u32) -> i64
    requires { l ≤ 28 }
    ensures { result ≡ remainder l p (floor.quotient l p) }
{
    p - (1i64 << l) * (p >> l)
}

// Down.
#[derive(Clone, Copy)]
pub struct Floor;

impl Rounding for Floor {
    ghost rule = { λ _. floor };

    ghost lawful = { λ r. floor_lawful };

    fn divide(&self, p: i64, format: &Format) -> (i64, i64) {
        let l = format.fraction();
        (p >> l, left_over(p, l))
    }

    fn share(&self) -> u64 {
        4096
    }

    fn reach(&self, m: u64, format: &Format) -> u64 {
        m.div_ceil(1u64 << format.fraction())
    }
}

// To the nearest, halves up.
#[derive(Clone, Copy)]
pub struct Nearest;

impl Rounding for Nearest {
    ghost rule = { λ _. nearest };

    ghost lawful = { λ r. nearest_lawful };

    fn divide(&self, p: i64, format: &Format) -> (i64, i64) {
        let (q, r) = Floor.divide(p, format);
        let unit = format.unit();
        if r + r < unit {
            (q, r)
        } else {
            (q + 1, r - unit)
        }
    }

    fn share(&self) -> u64 {
        2048
    }

    fn reach(&self, m: u64, format: &Format) -> u64 {
        let halves = m >> (format.fraction() - 1);
        halves.div_ceil(2)
    }
}

// p over 2^l with its fraction dropped: down from 0 on, and up below.
fn without_fraction(p: i64, l: u32) -> i64
    requires { l ≤ 28 }
    ensures { result ≡ toward_zero.quotient l p }
{
    if p < 0 {
        (p + ((1i64 << l) - 1)) >> l
    } else {
        p >> l
    }
}

// Toward zero: the fraction is dropped.
#[derive(Clone, Copy)]
pub struct TowardZero;

impl Rounding for TowardZero {
    ghost rule = { λ _. toward_zero };

    ghost lawful = { λ r. toward_zero_lawful };

    fn divide(&self, p: i64, format: &Format) -> (i64, i64) {
        let q = without_fraction(p, format.fraction());
        (q, p - format.unit() * q)
    }

    fn share(&self) -> u64 {
        4096
    }

    fn reach(&self, m: u64, format: &Format) -> u64 {
        m >> format.fraction()
    }
}
