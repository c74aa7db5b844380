ghost use Rattle.std.specs.Prelude.{◌≡◌};
ghost use Rattle.arithmetic.specs.Settings.{meaning};
ghost use Rattle.kinds.specs.Bounds.{bound_kind, fitting};
ghost use Rattle.kinds.specs.BoundLaws.{bound_lawful};

use crate::kind::Kind;
use crate::refusal::Refusal;
use crate::values::Bound;
use arithmetic::format::Coefficient;
use arithmetic::overflow::Overflow;
use arithmetic::rounding::Rounding;
use arithmetic::setting::FixedPoint;

// The kind of bounds.
#[derive(Clone, Copy)]
pub struct BoundKind;

// The bound with these parts, unless one is too large.
fn fit<R: Rounding, O: Overflow>(
    setting: &FixedPoint<R, O>,
    peak: u64,
    ceiling: u64,
) -> Result<Bound, Refusal>
    ensures { result ≡ fitting (meaning R.Rounding.rule O.Overflow.rule setting.now) peak ceiling }
{
    if peak > setting.format.width().half() as u64 - 1 {
        return Err(Refusal::Peak);
    }
    if ceiling > 274877906944 {
        return Err(Refusal::Ceiling);
    }
    Ok(Bound {
        peak: peak as u32,
        ceiling,
    })
}

impl Kind for BoundKind {
    type Value = Bound;

    ghost model = { λ _. bound_kind };

    ghost lawful = { λ k. bound_lawful };

    fn sample<R: Rounding, O: Overflow>(
        &self,
        setting: &FixedPoint<R, O>,
        u: i32,
    ) -> Result<Bound, Refusal> {
        fit(setting, u.unsigned_abs() as u64, 0)
    }

    fn zero<R: Rounding, O: Overflow>(&self, _setting: &FixedPoint<R, O>) -> Bound {
        Bound {
            peak: 0,
            ceiling: 0,
        }
    }

    fn scale<R: Rounding, O: Overflow>(
        &self,
        setting: &FixedPoint<R, O>,
        c: Coefficient,
        v: Bound,
    ) -> Result<Bound, Refusal> {
        let size = c.value.unsigned_abs() as u64;
        let l = setting.format.fraction();
        let peak = setting
            .rounding
            .reach(size * v.peak as u64, &setting.format);
        let error = (size * v.ceiling + ((1u64 << l) - 1)) >> l;
        fit(setting, peak, error + setting.rounding.share())
    }

    fn sum<R: Rounding, O: Overflow>(
        &self,
        setting: &FixedPoint<R, O>,
        v: Bound,
        w: Bound,
    ) -> Result<Bound, Refusal> {
        fit(
            setting,
            v.peak as u64 + w.peak as u64,
            v.ceiling + w.ceiling,
        )
    }

    fn difference<R: Rounding, O: Overflow>(
        &self,
        setting: &FixedPoint<R, O>,
        v: Bound,
        w: Bound,
    ) -> Result<Bound, Refusal> {
        self.sum(setting, v, w)
    }
}
