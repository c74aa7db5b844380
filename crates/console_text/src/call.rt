//! The lines that are typed at a channel, read as calls.
ghost use Rattle.std.specs.Prelude.{map, IfOk};
ghost use Rattle.console_text.specs.Calls.{Asks};
ghost use Rattle.console_text.specs.Numbers.{NumberOf, NumbersOf};

use crate::pieces::pieces;
use crate::rows::RowMaker;
use replay::log::Call;
use std::alloc::{AllocError, Global};
use std::str::from_utf8;

// The number that a text writes: digits, with a minus before them or not. A plus is not taken.
fn number(bytes: &[u8]) -> Option<i32>
    ensures { NumberOf bytes.now result }
{
    if bytes.first() == Some(&b'+') {
        return None;
    }
    from_utf8(bytes).ok()?.parse().ok()
}

// The numbers that texts write, in order, or none where one of them writes none.
fn numbers(heap: Global, texts: &[&[u8]]) -> Result<Option<Vec<i32>>, AllocError>
    ensures { IfOk result (λ v. NumbersOf (map (λ t. t.now) texts.now) v) }
{
    let mut all = Vec::new(heap);
    for text in texts {
        let Some(n) = number(text) else {
            return Ok(None);
        };
        all.push(n)?;
    }
    Ok(Some(all))
}

/// The call that a line asks for on a channel with these rows, or none where the line has another form.
/// A feed has a working row of zeros.
pub(crate) fn read_call<V: Copy>(
    heap: Global,
    line: &[u8],
    rows: &RowMaker<V>,
) -> Result<Option<Call<V>>, AllocError>
    ensures { IfOk result (λ c. Asks rows.now.registers rows.now.nodes line.now c) }
{
    let registers = rows.registers;
    if line == b"hush".as_slice() {
        return Ok(Some(Call::Hush { registers }));
    }
    if line == b"swap".as_slice() {
        return Ok(Some(Call::Swap(Vec::new(heap))));
    }
    if let Some(rest) = line.strip_prefix(b"feed ") {
        let Some(sample) = number(rest) else {
            return Ok(None);
        };
        let working = rows.zeros(heap, rows.nodes)?;
        return Ok(Some(Call::Feed {
            registers,
            working,
            sample,
        }));
    }
    if let Some(rest) = line.strip_prefix(b"swap ") {
        let texts = pieces(heap, rest, b' ')?;
        let Some(coefficients) = numbers(heap, texts.as_slice())? else {
            return Ok(None);
        };
        return Ok(Some(Call::Swap(coefficients)));
    }
    Ok(None)
}
