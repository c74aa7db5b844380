ghost use Rattle.std.specs.Prelude.{◌≡◌, ◌+◌, ◌^◌, ◌≤◌, pos, ◌+ℤ◌, ◌*ℤ◌, unsigned_abs};
ghost use Rattle.std.specs.Int.{int_min, int_max};
ghost use Rattle.arithmetic.specs.Settings.{meaning};
ghost use Rattle.exact.specs.Enclosures.{moved, down_by, up_by};
ghost use Rattle.kinds.specs.Enclosures.{enclosed_kind, ended, kept};
ghost use Rattle.kinds.specs.EnclosedLaws.{enclosed_lawful};

use crate::kind::Kind;
use crate::refusal::Refusal;
use crate::values::{Enclosed, Ends};
use crate::words::{product, store};
use arithmetic::format::{Coefficient, Format};
use arithmetic::overflow::Overflow;
use arithmetic::rounding::Rounding;
use arithmetic::setting::FixedPoint;

// The kind of words with an error enclosure.
#[derive(Clone, Copy)]
pub struct EnclosedKind;

// A coefficient times an end.
fn times(c: Coefficient, end: i64) -> i64
    requires { unsigned_abs end ≤ 2 ^ 38 }
    ensures value { result ≡ c.value *ℤ end }
    ensures bound { unsigned_abs result ≤ 2 ^ 61 }
{
    c.value as i64 * end
}

// The products of a coefficient and the ends of a value.
fn products(c: Coefficient, v: Enclosed) -> Ends
    ensures low { result.low ≡ c.value *ℤ v.low }
    ensures high { result.high ≡ c.value *ℤ v.high }
{
    Ends {
        low: times(c, v.low),
        high: times(c, v.high),
    }
}

// The smaller of two products plus what the remainder is worth, over 2^l, down.
fn low_end(products: Ends, r: i64, format: &Format) -> i64
    requires { unsigned_abs r ≤ 2 ^ 23 }
    ensures value { result ≡ down_by (int_min products.low products.high +ℤ pos 4096 *ℤ r) format.now.fraction }
    ensures bound { unsigned_abs result ≤ 2 ^ 61 }
{
    (products.low.min(products.high) + 4096 * r) >> format.fraction()
}

// The larger of two products plus what the remainder is worth, over 2^l, up.
fn high_end(products: Ends, r: i64, format: &Format) -> i64
    requires { unsigned_abs r ≤ 2 ^ 23 }
    ensures value { result ≡ up_by (int_max products.low products.high +ℤ pos 4096 *ℤ r) format.now.fraction }
    ensures bound { unsigned_abs result ≤ 2 ^ 61 }
{
    -(-(products.low.max(products.high) + 4096 * r) >> format.fraction())
}

// The value with these ends, unless one lies too far out.
fn with_ends(word: i32, low: i64, high: i64) -> Result<Enclosed, Refusal>
    ensures { result ≡ ended word low high }
{
    if low.unsigned_abs() > 274877906944 || high.unsigned_abs() > 274877906944 {
        return Err(Refusal::End);
    }
    Ok(Enclosed { word, low, high })
}

// In ticks, what storing the word for raw takes away.
fn lost(raw: i64, word: i32) -> i64
    requires { unsigned_abs raw ≤ 2 ^ 50 }
    ensures value { result ≡ moved raw word }
    ensures bound { unsigned_abs result ≤ 2 ^ 62 + 2 ^ 43 }
{
    4096 * (raw - word as i64)
}

// The value with its ends moved by what storing the word for raw takes away. Beyond 2^50 the move alone takes an end too far out.
fn with_ends_moved(raw: i64, word: i32, ends: Ends) -> Result<Enclosed, Refusal>
    ensures { result ≡ ended word (ends.low +ℤ moved raw word) (ends.high +ℤ moved raw word) }
{
    if raw.unsigned_abs() > 1125899906842624 {
        return Err(Refusal::End);
    }
    let by = lost(raw, word);
    with_ends(word, ends.low + by, ends.high + by)
}

// What the overflow rule stores for raw, with the ends moved by as much.
fn keep<R: Rounding, O: Overflow>(
    setting: &FixedPoint<R, O>,
    raw: i64,
    ends: Ends,
) -> Result<Enclosed, Refusal>
    ensures { result ≡ kept (meaning R.Rounding.rule O.Overflow.rule setting.now) raw ends.low ends.high }
{
    let word = store(setting, raw)?;
    if raw == word as i64 {
        with_ends(word, ends.low, ends.high)
    } else {
        with_ends_moved(raw, word, ends)
    }
}

impl Kind for EnclosedKind {
    type Value = Enclosed;

    ghost model = { λ _. enclosed_kind };

    ghost lawful = { λ k. enclosed_lawful };

    fn sample<R: Rounding, O: Overflow>(
        &self,
        _setting: &FixedPoint<R, O>,
        u: i32,
    ) -> Result<Enclosed, Refusal> {
        Ok(Enclosed {
            word: u,
            low: 0,
            high: 0,
        })
    }

    fn zero<R: Rounding, O: Overflow>(&self, _setting: &FixedPoint<R, O>) -> Enclosed {
        Enclosed {
            word: 0,
            low: 0,
            high: 0,
        }
    }

    fn scale<R: Rounding, O: Overflow>(
        &self,
        setting: &FixedPoint<R, O>,
        c: Coefficient,
        v: Enclosed,
    ) -> Result<Enclosed, Refusal> {
        let (q, r) = setting.rounding.divide(product(c, v.word), &setting.format);
        let products = products(c, v);
        let low = low_end(products, r, &setting.format);
        let high = high_end(products, r, &setting.format);
        keep(setting, q, Ends { low, high })
    }

    fn sum<R: Rounding, O: Overflow>(
        &self,
        setting: &FixedPoint<R, O>,
        v: Enclosed,
        w: Enclosed,
    ) -> Result<Enclosed, Refusal> {
        let ends = Ends {
            low: v.low + w.low,
            high: v.high + w.high,
        };
        keep(setting, v.word as i64 + w.word as i64, ends)
    }

    fn difference<R: Rounding, O: Overflow>(
        &self,
        setting: &FixedPoint<R, O>,
        v: Enclosed,
        w: Enclosed,
    ) -> Result<Enclosed, Refusal> {
        let ends = Ends {
            low: v.low - w.high,
            high: v.high - w.low,
        };
        keep(setting, v.word as i64 - w.word as i64, ends)
    }
}
