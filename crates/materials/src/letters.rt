//! The letters of a record as a form, a rounding rule and an overflow rule.
ghost use Rattle.std.specs.Prelude.{◌≡◌, ℕ, Option};
ghost use Rattle.materials.specs.Letters.{form_of, rounding_of, overflow_of};

use arithmetic::choice::{OverflowChoice, RoundingChoice};
use forms::form::Form;

/// What a letter of a record stands for.
pub trait FromLetter: Sized {
    ghost meant_by: { ℕ → Option Self };

    /// What the letter stands for, if it stands for anything.
    fn from_letter(letter: char) -> Option<Self>
        ensures { result ≡ meant_by letter };
}

impl FromLetter for Form {
    ghost meant_by = { form_of };

    fn from_letter(letter: char) -> Option<Form> {
        match letter {
            '1' => Some(Form::Direct1),
            '2' => Some(Form::Direct2),
            'T' => Some(Form::Transposed2),
            _ => None,
        }
    }
}

impl FromLetter for RoundingChoice {
    ghost meant_by = { rounding_of };

    fn from_letter(letter: char) -> Option<RoundingChoice> {
        match letter {
            'F' => Some(RoundingChoice::Floor),
            'N' => Some(RoundingChoice::Nearest),
            'Z' => Some(RoundingChoice::TowardZero),
            _ => None,
        }
    }
}

impl FromLetter for OverflowChoice {
    ghost meant_by = { overflow_of };

    fn from_letter(letter: char) -> Option<OverflowChoice> {
        match letter {
            'W' => Some(OverflowChoice::Wrap),
            'S' => Some(OverflowChoice::Saturate),
            'X' => Some(OverflowChoice::Stop),
            _ => None,
        }
    }
}

/// What the three letters of a record stand for.
#[derive(Clone, Copy, Debug, PartialEq)]
pub struct Choices {
    pub form: Form,
    pub rounding: RoundingChoice,
    pub overflow: OverflowChoice,
}
