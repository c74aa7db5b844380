ghost use Rattle.arithmetic.specs.Settings.{meaning};
ghost use Rattle.channel.specs.Theorem.{ChannelTheorem};

use arithmetic::overflow::Overflow;
use arithmetic::rounding::Rounding;
use arithmetic::setting::FixedPoint;
use kinds::kind::Kind;

// The channel theorem, for every kind of value, rounding rule and overflow rule: it is all in the contract.
pub fn channel_theorem<K: Kind, R: Rounding, O: Overflow>(
    kind: &K,
    setting: &FixedPoint<R, O>,
) -> u8
    ensures { ChannelTheorem (meaning R.Rounding.rule O.Overflow.rule setting.now) (K.Kind.model kind.now (meaning R.Rounding.rule O.Overflow.rule setting.now)) }
{
    0
}
