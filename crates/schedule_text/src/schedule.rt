//! The whole text of the schedule.
ghost use Rattle.std.specs.Prelude.{◌≡◌, [], ◌∷◌, ◌++◌, map, length, IfOk, None, string_bytes, decimal, OnOk};
ghost use Rattle.std.specs.List.{AllByRecursion};
ghost use Rattle.materials.specs.Layout.{meaning};
ghost use Rattle.materials.specs.Lists.{record_fault};
ghost use Rattle.schedule_text.specs.Lines.{fields};
ghost use Rattle.schedule_text.specs.Schedules.{LinesOf, ScheduleOf};

use crate::line::put_line;
use crate::material::outcome;
use materials::read::read;
use materials::record::Record;
use std::alloc::{AllocError, Global};

// Adds the lines of good records, in their order.
fn put_lines(heap: Global, text: &mut Vec<u8>, records: &[Record]) -> Result<(), AllocError>
    requires { AllByRecursion (λ r. record_fault r ≡ None) records.now }
    ensures { OnOk result (LinesOf (map meaning records.now) text.old.items text.new.items) }
{
    for item in records {
        let outcome = outcome(heap, item)?;
        put_line(heap, text, item.name.as_slice(), outcome)?;
    }
    Ok(())
}

// A line of a word and a number.
fn line(heap: Global, word: &str, number: usize) -> Result<Vec<u8>, AllocError>
    ensures { IfOk result (λ v. v.items ≡ word.now ++ fields (decimal number ∷ [])) }
{
    Ok(format!(in heap; "{word}\t{number}\n")?.into_bytes())
}

/// The schedule of a materials file: the count of its materials, then a line for each in file order; or the number by which it is refused.
///
/// Samples are taken from -X to X with X = 2^(w-2), w the width of the material's words. Where memory is wanting there is no text; when that is so is left open.
pub fn schedule(heap: Global, file: &[u8]) -> Result<Vec<u8>, AllocError>
    ensures { IfOk result (λ text. ScheduleOf file.now text.items) }
{
    let records = match read(heap, file) {
        Ok(records) => records,
        Err(refusal) => {
            let number = refusal.number().ok_or(AllocError)?;
            return line(heap, "refused", usize::from(number));
        }
    };
    let mut text = line(heap, "materials", records.len())?;
    put_lines(heap, &mut text, records.as_slice())?;
    Ok(text)
}
