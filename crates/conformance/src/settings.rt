//! Settings: word formats and the letters of rules.
ghost use Rattle.std.specs.Prelude.{◌≡◌, [], ◌∷◌, IfOk, MatchResult};
ghost use Rattle.conformance.specs.Letters.{Letter, NoLetter, rounding_letter, overflow_letter};

use crate::fault::Fault;
use crate::numbers::read_number;
use arithmetic::choice::{OverflowChoice, RoundingChoice};
use arithmetic::setting::Setting;
use materials::letters::FromLetter;

/// A setting whose rules were chosen by letters.
pub type Chosen = Setting<RoundingChoice, OverflowChoice>;

/// What the one letter of a field stands for.
pub fn read_letter<T: FromLetter + Drop>(text: &str) -> Result<T, Fault>
    ensures { MatchResult result (Letter T.meant_by text.now) (λ _. NoLetter T.meant_by text.now) }
{
    let [letter] = text.as_bytes() else {
        return Err(Fault::Unread);
    };
    T::from_letter(char::from(*letter)).ok_or(Fault::Unread)
}

/// The setting of four fields; its format may be none.
pub fn read_setting(
    whole: &str,
    fraction: &str,
    rounding: &str,
    overflow: &str,
) -> Result<Chosen, Fault>
    ensures rounding { IfOk result (λ s. rounding.now ≡ rounding_letter s.rounding ∷ []) }
    ensures overflow { IfOk result (λ s. overflow.now ≡ overflow_letter s.overflow ∷ []) }
{
    Ok(Setting {
        whole: u32::from(read_number::<u8>(whole)?),
        fraction: u32::from(read_number::<u8>(fraction)?),
        rounding: read_letter(rounding)?,
        overflow: read_letter(overflow)?,
    })
}
