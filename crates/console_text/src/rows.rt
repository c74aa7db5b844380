//! The rows of a channel.
ghost use Rattle.std.specs.Prelude.{◌≡◌, replicate, IfOk};

use std::alloc::{AllocError, Global};

/// How many registers and nodes a channel has, and the zero that its rows are filled with.
#[derive(Clone, Copy)]
pub(crate) struct RowMaker<V> {
    pub(crate) registers: usize,
    pub(crate) nodes: usize,
    pub(crate) zero: V,
}

impl<V: Copy> RowMaker<V> {
    /// So many zeros.
    pub(crate) fn zeros(&self, heap: Global, count: usize) -> Result<Vec<V>, AllocError>
        ensures { IfOk result (λ v. v.items ≡ replicate count self.now.zero) }
    {
        let mut row = Vec::new(heap);
        row.resize(count, self.zero)?;
        Ok(row)
    }
}
