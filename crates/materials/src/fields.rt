//! The limits on a record's single fields, wherever the record lies.
ghost use Rattle.std.specs.Prelude.{◌≡◌, Some};
ghost use Rattle.materials.specs.Refusals.{Checks, first};
ghost use Rattle.materials.specs.Records.{every, printable, unwritten, name_rows, count_rows, ChoicesFound, FormatFound};

use crate::letters::{Choices, FromLetter};
use crate::refusal::RecordFault;
use arithmetic::choice::{OverflowChoice, RoundingChoice};
use arithmetic::format::Format;
use forms::form::Form;

// Whether every byte of a name is from 32 to 126.
pub(crate) fn all_printable(name: &[u8]) -> bool
    ensures { result ≡ every printable name.now }
{
    name.iter().all(|b| *b >= 32 && *b <= 126)
}

// Whether a name has 1 to 40 bytes, each from 32 to 126.
pub(crate) fn check_name(name: &[u8]) -> Result<(), RecordFault>
    ensures { Checks (first (name_rows (unwritten name.now) name.now)) result }
{
    if name.len() < 1 || name.len() > 40 {
        return Err(RecordFault::NameSize);
    }
    if !all_printable(name) {
        return Err(RecordFault::NameByte);
    }
    Ok(())
}

/// What the letters of a record stand for, or the first that stands for nothing.
pub fn choices_of(form: char, rounding: char, overflow: char) -> Result<Choices, RecordFault>
    ensures { ChoicesFound form rounding overflow result }
{
    Ok(Choices {
        form: Form::from_letter(form).ok_or(RecordFault::FormLetter)?,
        rounding: RoundingChoice::from_letter(rounding).ok_or(RecordFault::RoundingLetter)?,
        overflow: OverflowChoice::from_letter(overflow).ok_or(RecordFault::OverflowLetter)?,
    })
}

/// The format with so many whole and fraction bits, or what is wrong with it.
pub fn format_of(whole_bits: u8, fraction_bits: u8) -> Result<Format, RecordFault>
    ensures { FormatFound whole_bits fraction_bits result }
{
    Ok(Format::new(u32::from(whole_bits), u32::from(fraction_bits))?)
}

// Whether there are 1 to 9 feedforward and at most 8 feedback coefficients.
pub(crate) fn check_counts(feedforward: usize, feedback: usize) -> Result<(), RecordFault>
    ensures { Checks (first (count_rows feedforward feedback)) result }
{
    if feedforward < 1 || feedforward > 9 {
        return Err(RecordFault::FeedforwardCount);
    }
    if feedback > 8 {
        return Err(RecordFault::FeedbackCount);
    }
    Ok(())
}
