ghost use Rattle.std.specs.Prelude.{◌≡◌, ◌^◌, ◌≤◌, ◌*ℤ◌, unsigned_abs};
ghost use Rattle.arithmetic.specs.Settings.{meaning};
ghost use Rattle.kinds.specs.Arithmetics.{stored};
ghost use Rattle.kinds.specs.Words.{word_kind, as_word};
ghost use Rattle.kinds.specs.WordLaws.{word_lawful};

use crate::kind::Kind;
use crate::refusal::Refusal;
use crate::values::Word;
use arithmetic::format::Coefficient;
use arithmetic::overflow::Overflow;
use arithmetic::rounding::Rounding;
use arithmetic::setting::FixedPoint;

// The kind of bare words.
#[derive(Clone, Copy)]
pub struct WordKind;

// The product of a coefficient and a word.
pub fn product(c: Coefficient, word: i32) -> i64
    ensures value { result ≡ c.value *ℤ word }
    ensures bound { unsigned_abs result ≤ 2 ^ 54 }
{
    c.value as i64 * word as i64
}

// The word that the overflow rule stores for a raw number.
pub fn store<R: Rounding, O: Overflow>(setting: &FixedPoint<R, O>, raw: i64) -> Result<i32, Refusal>
    ensures { result ≡ stored (meaning R.Rounding.rule O.Overflow.rule setting.now) raw }
{
    setting
        .overflow
        .store(raw, setting.format.width())
        .ok_or(Refusal::Overflow)
}

// The same as a value.
fn keep<R: Rounding, O: Overflow>(setting: &FixedPoint<R, O>, raw: i64) -> Result<Word, Refusal>
    ensures { result ≡ as_word (stored (meaning R.Rounding.rule O.Overflow.rule setting.now) raw) }
{
    Ok(Word {
        word: store(setting, raw)?,
    })
}

impl Kind for WordKind {
    type Value = Word;

    ghost model = { λ _. word_kind };

    ghost lawful = { λ k. word_lawful };

    fn sample<R: Rounding, O: Overflow>(
        &self,
        _setting: &FixedPoint<R, O>,
        u: i32,
    ) -> Result<Word, Refusal> {
        Ok(Word { word: u })
    }

    fn zero<R: Rounding, O: Overflow>(&self, _setting: &FixedPoint<R, O>) -> Word {
        Word { word: 0 }
    }

    fn scale<R: Rounding, O: Overflow>(
        &self,
        setting: &FixedPoint<R, O>,
        c: Coefficient,
        v: Word,
    ) -> Result<Word, Refusal> {
        let (q, _) = setting.rounding.divide(product(c, v.word), &setting.format);
        keep(setting, q)
    }

    fn sum<R: Rounding, O: Overflow>(
        &self,
        setting: &FixedPoint<R, O>,
        v: Word,
        w: Word,
    ) -> Result<Word, Refusal> {
        keep(setting, v.word as i64 + w.word as i64)
    }

    fn difference<R: Rounding, O: Overflow>(
        &self,
        setting: &FixedPoint<R, O>,
        v: Word,
        w: Word,
    ) -> Result<Word, Refusal> {
        keep(setting, v.word as i64 - w.word as i64)
    }
}
