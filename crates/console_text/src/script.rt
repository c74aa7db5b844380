//! The lines of an input, read as a list of calls.
ghost use Rattle.std.specs.Prelude.{map, IfOk};
ghost use Rattle.console_text.specs.Calls.{Reads};

use crate::call::read_call;
use crate::rows::RowMaker;
use replay::log::Call;
use std::alloc::{AllocError, Global};

/// The calls that lines ask for, in order, and of each line whether it asks for one.
// A list of `Option<Call<V>>` would be taken apart again, since a replay takes the calls as one slice.
#[derive(Drop)]
pub(crate) struct Script<V> {
    pub(crate) calls: Vec<Call<V>>,
    pub(crate) marks: Vec<bool>,
}

/// Reads each line as a call, or marks it as unread.
pub(crate) fn read_script<V: Copy>(
    heap: Global,
    lines: &[&[u8]],
    rows: &RowMaker<V>,
) -> Result<Script<V>, AllocError>
    ensures { IfOk result (λ s. Reads rows.now.registers rows.now.nodes (map (λ l. l.now) lines.now) s.marks.items s.calls.items) }
{
    let mut calls = Vec::new(heap);
    let mut marks = Vec::new(heap);
    for line in lines {
        match read_call(heap, line, rows)? {
            Some(call) => {
                calls.push(call)?;
                marks.push(true)?;
            }
            None => marks.push(false)?,
        }
    }
    Ok(Script { calls, marks })
}
