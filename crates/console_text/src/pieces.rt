//! A text cut at a byte.
ghost use Rattle.std.specs.Prelude.{◌≡◌, map, IfOk};
ghost use Rattle.console_text.specs.Pieces.{pieces as pieces_of, lines as lines_of};

use std::alloc::{AllocError, Global};

/// The pieces of a text between bytes of this value.
pub(crate) fn pieces(heap: Global, text: &[u8], at: u8) -> Result<Vec<&[u8]>, AllocError>
    ensures { IfOk result (λ v. map (λ x. x.now) v.items ≡ pieces_of at text.now) }
{
    text.split(|byte| *byte == at).collect(heap)
}

/// The lines of a text, without the line feed that ends each. The last may lack its line feed.
pub(crate) fn lines(heap: Global, text: &[u8]) -> Result<Vec<&[u8]>, AllocError>
    ensures { IfOk result (λ v. map (λ x. x.now) v.items ≡ lines_of text.now) }
{
    let mut lines = pieces(heap, text, b'\n')?;
    if lines.last().is_some_and(|line| line.is_empty()) {
        lines.pop();
    }
    Ok(lines)
}
