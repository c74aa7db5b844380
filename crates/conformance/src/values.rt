//! Values of a kind, and rows of them.
use crate::settings::Chosen;
use kinds::kind::Kind;
use std::alloc::{AllocError, Global};

/// The value of a sample, or zero where the kind refuses the sample. Under a setting that is refused there are no values.
pub fn value_of<K: Kind>(kind: &K, setting: &Chosen, sample: i32) -> Option<K::Value> {
    let fixed = setting.check().ok()?;
    let value = kind.sample(&fixed, sample);
    Some(value.unwrap_or_else(|_| kind.zero(&fixed)))
}

/// A row of so many places, each with this value; where there is none, the row is empty.
pub fn row_of<V: Copy>(
    heap: Global,
    value: Option<&V>,
    places: usize,
) -> Result<Vec<V>, AllocError> {
    match value {
        Some(value) => vec![in heap; *value; places],
        None => Ok(Vec::new(heap)),
    }
}
