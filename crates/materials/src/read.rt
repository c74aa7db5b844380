//! All records of a file, owned.
ghost use Rattle.std.specs.Prelude.{◌≡◌, map, IfOk, MatchResult};
ghost use Rattle.materials.specs.Layout.{meaning, seen};
ghost use Rattle.materials.specs.Refusals.{RefusedOrMemory};
ghost use Rattle.materials.specs.Files.{refusal};
ghost use Rattle.materials.specs.Numbers.{TellsOrMemory, file_table};
ghost use Rattle.materials.specs.Laws.{Says, Encodes, NoEncodingOrMemory};

use crate::check::checked;
use crate::coefficients::decode;
use crate::part::{Fields, examine};
use crate::record::Record;
use crate::refusal::Refusal;
use std::alloc::{AllocError, Global};

// The record that these fields say.
fn make(heap: Global, fields: Fields<'_>) -> Result<Record, AllocError>
    ensures { IfOk result (λ x. meaning x ≡ seen fields.entry) }
{
    Ok(Record {
        name: Vec::from_slice(heap, fields.name)?,
        form: fields.form,
        rounding: fields.rounding,
        overflow: fields.overflow,
        whole_bits: fields.whole_bits,
        fraction_bits: fields.fraction_bits,
        feedforward: decode(heap, fields.feedforward)?,
        feedback: decode(heap, fields.feedback)?,
    })
}

/// All records of a file, in its order, or why it is refused.
///
/// They are a good list, and its encoding is the file. Want of memory is told of a good file only.
pub fn read(heap: Global, file: &[u8]) -> Result<Vec<Record>, Refusal>
    ensures answer { MatchResult result (λ v. Says file.now (map meaning v.items)) (λ e. RefusedOrMemory (refusal file.now) e) }
    ensures numbers { TellsOrMemory (file_table file.now) result }
    ensures exactly { MatchResult result (λ v. Encodes (map meaning v.items) file.now) (λ e. NoEncodingOrMemory file.now e) }
{
    let directory = checked(file)?;
    let mut out = Vec::new(heap);
    // By its number: an iterator over parts would count it inside.
    for i in 0..directory.count() {
        let Ok(fields) = examine(directory.part(i)) else {
            unreachable();
        };
        out.push(make(heap, fields)?)?;
    }
    Ok(out)
}
