//! A file read and written again.
ghost use Rattle.materials.specs.Laws.{Rewritten};

use crate::read::read;
use crate::refusal::Refusal;
use crate::write::write;
use std::alloc::Global;

/// Reads a file and writes it again: the same bytes.
pub fn rewrite(heap: Global, file: &[u8], destination: &mut [u8]) -> Result<usize, Refusal>
    ensures { Rewritten file.now destination.old destination.new result }
{
    let records = read(heap, file)?;
    write(records.as_slice(), destination)
}
