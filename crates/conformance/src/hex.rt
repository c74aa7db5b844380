//! Bytes as pairs of hexadecimal digits.
ghost use Rattle.std.specs.Prelude.{IfSome};
ghost use Rattle.conformance.specs.Digits.{DigitOf, Writes};

use crate::fault::Fault;
use std::alloc::Global;
use std::fmt;

// What a digit is worth, 0 to 15.
fn digit(b: u8) -> Option<u8>
    ensures { DigitOf b result }
{
    match b {
        b'0'..=b'9' => Some(b - b'0'),
        b'a'..=b'f' => Some(b - b'a' + 10),
        _ => None,
    }
}

// The byte that two digits write.
fn byte(high: u8, low: u8) -> Option<u8>
    ensures { IfSome result (Writes high low) }
{
    Some(digit(high)? * 16 + digit(low)?)
}

/// The bytes that a field writes; none where it is a dash.
pub fn read_bytes(heap: Global, text: &str) -> Result<Vec<u8>, Fault> {
    if text == "-" {
        return Ok(Vec::new(heap));
    }
    if text.is_empty() {
        return Err(Fault::Unread);
    }
    text.as_bytes()
        .chunks(2)
        .map(|pair| match pair {
            [high, low] => byte(*high, *low).ok_or(Fault::Unread),
            _ => Err(Fault::Unread),
        })
        .try_collect(heap)
}

/// Bytes, shown as pairs of digits, or as a dash where there are none.
#[derive(Drop)]
pub struct Hex<'a>(pub &'a [u8]);

impl fmt::Display for Hex<'_> {
    fn fmt<W: fmt::Write>(&self, f: &mut fmt::Formatter<W>) -> fmt::Result {
        if self.0.is_empty() {
            return f.write_str("-");
        }
        for b in self.0 {
            write!(f, "{b:02x}")?;
        }
        Ok(())
    }
}
