ghost use Rattle.std.specs.Prelude.{◌≡◌};
ghost use Rattle.arithmetic.specs.Settings.{FixedArithmetic, Lawful};
ghost use Rattle.kinds.specs.Kinds.{KindModel, LawfulKind, arithmetic};

use crate::refusal::Refusal;
use arithmetic::format::Coefficient;
use arithmetic::overflow::Overflow;
use arithmetic::rounding::Rounding;
use arithmetic::setting::FixedPoint;

// A kind of value that a wiring can be worked over: a small object, with its values as an associated type.
pub trait Kind {
    type Value: Copy;

    // Its arithmetic and what a value covers, under each setting.
    ghost model: { Self → FixedArithmetic → KindModel Self.Value };

    // The value of a sample.
    fn sample<R: Rounding, O: Overflow>(
        &self,
        setting: &FixedPoint<R, O>,
        u: i32,
    ) -> Result<Self::Value, Refusal>
        ensures { result ≡ (arithmetic model R.Rounding.rule O.Overflow.rule self.now setting.now).sample u };

    fn zero<R: Rounding, O: Overflow>(&self, setting: &FixedPoint<R, O>) -> Self::Value
        ensures { result ≡ (arithmetic model R.Rounding.rule O.Overflow.rule self.now setting.now).zero };

    // The value times a coefficient.
    fn scale<R: Rounding, O: Overflow>(
        &self,
        setting: &FixedPoint<R, O>,
        c: Coefficient,
        v: Self::Value,
    ) -> Result<Self::Value, Refusal>
        ensures { result ≡ (arithmetic model R.Rounding.rule O.Overflow.rule self.now setting.now).scale c.value v };

    fn sum<R: Rounding, O: Overflow>(
        &self,
        setting: &FixedPoint<R, O>,
        v: Self::Value,
        w: Self::Value,
    ) -> Result<Self::Value, Refusal>
        ensures { result ≡ (arithmetic model R.Rounding.rule O.Overflow.rule self.now setting.now).sum v w };

    // v less w.
    fn difference<R: Rounding, O: Overflow>(
        &self,
        setting: &FixedPoint<R, O>,
        v: Self::Value,
        w: Self::Value,
    ) -> Result<Self::Value, Refusal>
        ensures { result ≡ (arithmetic model R.Rounding.rule O.Overflow.rule self.now setting.now).difference v w };

    ghost lawful: { (k : Self) (s : FixedArithmetic) → Lawful s → LawfulKind s (model k s) };
}

// A kind that is lent is a kind too.
impl<K: Kind> Kind for &K {
    type Value = K::Value;

    ghost model = { λ k. K.Kind.model k.now };

    ghost lawful = { λ k. K.Kind.lawful k.now };

    fn sample<R: Rounding, O: Overflow>(
        &self,
        setting: &FixedPoint<R, O>,
        u: i32,
    ) -> Result<K::Value, Refusal> {
        K::sample(*self, setting, u)
    }

    fn zero<R: Rounding, O: Overflow>(&self, setting: &FixedPoint<R, O>) -> K::Value {
        K::zero(*self, setting)
    }

    fn scale<R: Rounding, O: Overflow>(
        &self,
        setting: &FixedPoint<R, O>,
        c: Coefficient,
        v: K::Value,
    ) -> Result<K::Value, Refusal> {
        K::scale(*self, setting, c, v)
    }

    fn sum<R: Rounding, O: Overflow>(
        &self,
        setting: &FixedPoint<R, O>,
        v: K::Value,
        w: K::Value,
    ) -> Result<K::Value, Refusal> {
        K::sum(*self, setting, v, w)
    }

    fn difference<R: Rounding, O: Overflow>(
        &self,
        setting: &FixedPoint<R, O>,
        v: K::Value,
        w: K::Value,
    ) -> Result<K::Value, Refusal> {
        K::difference(*self, setting, v, w)
    }
}
