ghost use Rattle.std.specs.Prelude.{◌≡◌};
ghost use Rattle.arithmetic.specs.Overflow.{OverflowRule, LawfulOverflow, wrapped, wrap, saturate, stop};
ghost use Rattle.arithmetic.specs.RuleLaws.{wrap_lawful, saturate_lawful, stop_lawful};

use crate::format::Width;

// What becomes of a raw number that no word holds.
pub trait Overflow: Copy {
    // The rule's function.
    ghost rule: { Self → OverflowRule };

    // The word that is stored for the raw number at a width; none where the run stops.
    fn store(&self, raw: i64, width: Width) -> Option<i32>
        ensures { result ≡ (rule self.now).store width.bits raw };

    // It keeps the laws of an overflow rule.
    ghost lawful: { (o : Self) → LawfulOverflow (rule o) };
}

// By whole turns of 2^w, as two's complement adders do.
#[derive(Clone, Copy)]
pub struct Wrap;

impl Overflow for Wrap {
    ghost rule = { λ _. wrap };

    ghost lawful = { λ o. wrap_lawful };

    fn store(&self, raw: i64, width: Width) -> Option<i32> {
        Some(turned(raw, width))
    }
}

// The word that lies whole turns of 2^w from the raw number: its low w bits, of which the highest is the sign.
fn turned(raw: i64, width: Width) -> i32
    ensures { result ≡ wrapped width.bits raw }
{
    let spare = 64 - width.bits();
    ((raw << spare) >> spare) as i32
}

// To the nearer end of the word.
#[derive(Clone, Copy)]
pub struct Saturate;

impl Overflow for Saturate {
    ghost rule = { λ _. saturate };

    ghost lawful = { λ o. saturate_lawful };

    fn store(&self, raw: i64, width: Width) -> Option<i32> {
        let half = width.half();
        Some(raw.clamp(-half, half - 1) as i32)
    }
}

// The run stops.
#[derive(Clone, Copy)]
pub struct Stop;

impl Overflow for Stop {
    ghost rule = { λ _. stop };

    ghost lawful = { λ o. stop_lawful };

    fn store(&self, raw: i64, width: Width) -> Option<i32> {
        let half = width.half();
        if -half <= raw && raw < half {
            Some(raw as i32)
        } else {
            None
        }
    }
}
