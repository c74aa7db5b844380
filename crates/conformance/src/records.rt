//! Records of a materials file, read and shown.
use crate::fault::Fault;
use crate::hex::{Hex, read_bytes};
use crate::numbers::{read_list, read_number};
use crate::show::List;
use materials::record::Record;
use std::alloc::Global;
use std::fmt;

// The character of a number.
fn read_char(text: &str) -> Result<char, Fault> {
    char::from_u32(read_number(text)?).ok_or(Fault::Unread)
}

// The record of a field.
fn read_record(heap: Global, text: &str) -> Result<Record, Fault> {
    let parts: Vec<&str> = text.split(':').collect(heap)?;
    let [name, form, rounding, overflow, whole, fraction, b, a] = parts.as_slice() else {
        return Err(Fault::Unread);
    };
    Ok(Record {
        name: read_bytes(heap, name)?,
        form: read_char(form)?,
        rounding: read_char(rounding)?,
        overflow: read_char(overflow)?,
        whole_bits: read_number(whole)?,
        fraction_bits: read_number(fraction)?,
        feedforward: read_list(heap, b)?,
        feedback: read_list(heap, a)?,
    })
}

/// The records of these fields.
pub fn read_records(heap: Global, fields: &[&str]) -> Result<Vec<Record>, Fault> {
    fields
        .iter()
        .map(|field| read_record(heap, field))
        .try_collect(heap)
}

/// A record of a file, with its letters as themselves.
#[derive(Drop)]
pub struct Line<'a>(pub &'a Record);

impl fmt::Display for Line<'_> {
    fn fmt<W: fmt::Write>(&self, f: &mut fmt::Formatter<W>) -> fmt::Result {
        let name = Hex(self.0.name.as_slice());
        let form = self.0.form;
        let rounding = self.0.rounding;
        let overflow = self.0.overflow;
        write!(f, "{name} {form} {rounding} {overflow} ")?;
        let whole = self.0.whole_bits;
        let fraction = self.0.fraction_bits;
        let b = List(self.0.feedforward.as_slice());
        let a = List(self.0.feedback.as_slice());
        write!(f, "{whole} {fraction} {b} {a}")
    }
}
