//! Lists of coefficients, in bytes and in memory.
ghost use Rattle.std.specs.Prelude.{◌≡◌, ◌/◌, length, IfOk};
ghost use Rattle.arithmetic.specs.Formats.{width};
ghost use Rattle.materials.specs.Layout.{word_at, words as words_in};
ghost use Rattle.materials.specs.Records.{words_ok};

use arithmetic::format::Format;
use std::alloc::{AllocError, Global};

// The coefficient that four bytes are.
fn word(bytes: &[u8; 4]) -> i32
    ensures { result ≡ word_at bytes.now }
{
    i32::from_be_bytes(*bytes)
}

// Whether the coefficients that stand in the bytes are words of the format.
pub(crate) fn bytes_hold(bytes: &[u8], format: Format) -> bool
    ensures { result ≡ words_ok (width format) (words_in (length bytes.now / 4) bytes.now) }
{
    let (words, _) = bytes.as_chunks();
    words.iter().all(|bytes| format.holds(word(bytes)))
}

// The coefficients that stand in the bytes.
pub(crate) fn decode(heap: Global, bytes: &[u8]) -> Result<Vec<i32>, AllocError>
    ensures { IfOk result (λ v. v.items ≡ words_in (length bytes.now / 4) bytes.now) }
{
    let (words, _) = bytes.as_chunks();
    let mut out = Vec::with_capacity(heap, words.len())?;
    for bytes in words {
        out.push(word(bytes))?;
    }
    Ok(out)
}

// Whether all are words of the format.
pub(crate) fn words_hold(words: &[i32], format: Format) -> bool
    ensures { result ≡ words_ok (width format) words.now }
{
    words.iter().all(|z| format.holds(*z))
}
