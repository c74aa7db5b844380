//! The calls of a run, and the watch that it is opened with.
use crate::fault::Fault;
use crate::numbers::{read_length, read_list, read_number};
use crate::values::row_of;
use channel::state::Limits;
use replay::log::Call;
use std::alloc::Global;

// The call of a field. A feed's working row holds zeros.
fn read_call<V: Copy>(heap: Global, zero: Option<&V>, text: &str) -> Result<Call<V>, Fault> {
    let parts: Vec<&str> = text.split(':').collect(heap)?;
    match parts.as_slice() {
        ["f", registers, working, sample] => Ok(Call::Feed {
            registers: read_length(registers)?,
            working: row_of(heap, zero, read_length(working)?)?,
            sample: read_number(sample)?,
        }),
        ["s", coefficients] => Ok(Call::Swap(read_list(heap, coefficients)?)),
        ["h", registers] => Ok(Call::Hush {
            registers: read_length(registers)?,
        }),
        _ => Err(Fault::Unread),
    }
}

/// The calls of these fields.
pub fn read_calls<V: Copy>(
    heap: Global,
    zero: Option<&V>,
    fields: &[&str],
) -> Result<Vec<Call<V>>, Fault> {
    fields
        .iter()
        .map(|field| read_call(heap, zero, field))
        .try_collect(heap)
}

/// The limits of the watch; none where the field is a dash.
pub fn read_limits(text: &str) -> Result<Option<Limits>, Fault> {
    if text == "-" {
        return Ok(None);
    }
    let (range, count) = text.split_once(',').ok_or(Fault::Unread)?;
    Ok(Some(Limits {
        range: read_number(range)?,
        count: read_number(count)?,
    }))
}
