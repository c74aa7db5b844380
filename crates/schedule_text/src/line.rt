//! The lines of the schedule.
ghost use Rattle.std.specs.Prelude.{◌≡◌, ◌++◌, OnOk};
ghost use Rattle.schedule_text.specs.Lines.{line};

use crate::outcome::Outcome;
use std::alloc::{AllocError, Global};

// Adds the line of a material.
pub(crate) fn put_line(
    heap: Global,
    text: &mut Vec<u8>,
    name: &[u8],
    outcome: Outcome,
) -> Result<(), AllocError>
    ensures { OnOk result (text.new.items ≡ text.old.items ++ line name.now outcome) }
{
    text.extend_from_slice(name)?;
    text.extend_from_slice(outcome.to_string(heap)?.as_bytes())?;
    Ok(())
}
