//! One record as it lies in a file.
ghost use Rattle.std.specs.Prelude.{◌≡◌, ◌≤◌, length, Some, None, MatchResult};
ghost use Rattle.std.specs.Str.{bytes_eq};
ghost use Rattle.arithmetic.specs.Formats.{width};
ghost use Rattle.materials.specs.Layout.{seen};
ghost use Rattle.materials.specs.Records.{coefficients_fault, tail_fault, part_fault, material_of, Pieces};
ghost use Rattle.materials.specs.Records.{material as material_in, name_of as name_in};

use crate::coefficients::bytes_hold;
use crate::fields::{all_printable, check_counts, choices_of, format_of};
use crate::refusal::RecordFault;
use crate::same::same_bytes;
use arithmetic::format::Format;

/// A record in a file, cut into its fields; the coefficients are left as bytes.
#[derive(Clone, Copy)]
pub struct Fields<'a> {
    /// The name's bytes.
    pub name: &'a [u8],
    /// The letter of the form.
    pub form: char,
    /// The letter of the rounding rule.
    pub rounding: char,
    /// The letter of the overflow rule.
    pub overflow: char,
    /// Whole bits of a word, sign included.
    pub whole_bits: u8,
    /// Fraction bits of a word.
    pub fraction_bits: u8,
    /// The feedforward coefficients, four bytes each.
    pub feedforward: &'a [u8],
    /// The feedback coefficients, four bytes each.
    pub feedback: &'a [u8],
}

// Cuts the bytes of the coefficients in two.
fn cut(rest: &[u8], nb: u8, na: u8, format: Format) -> Result<(&[u8], &[u8]), RecordFault>
    ensures { MatchResult result (λ x. (coefficients_fault nb na (width format) rest.now ≡ None) × Pieces nb na rest.now x.0.now x.1.now) (λ e. coefficients_fault nb na (width format) rest.now ≡ Some e) }
{
    let middle = 4 * (nb as usize);
    if rest.len() != middle + 4 * (na as usize) {
        return Err(RecordFault::Length);
    }
    let forward = &rest[0..middle];
    let back = &rest[middle..];
    if !bytes_hold(forward, format) || !bytes_hold(back, format) {
        return Err(RecordFault::Coefficient);
    }
    Ok((forward, back))
}

// The seven bytes after a name, and the coefficients.
fn examine_tail<'a>(name: &'a [u8], tail: &'a [u8]) -> Result<Fields<'a>, RecordFault>
    requires { 7 ≤ length tail.now }
    ensures { MatchResult result (λ f. (tail_fault tail.now ≡ None) × (seen f ≡ material_of name.now tail.now)) (λ e. tail_fault tail.now ≡ Some e) }
{
    let [form, rounding, overflow, k, l, nb, na, coefficients @ ..] = tail else {
        return Err(RecordFault::TooShort);
    };
    let form = char::from(*form);
    let rounding = char::from(*rounding);
    let overflow = char::from(*overflow);
    choices_of(form, rounding, overflow)?;
    let format = format_of(*k, *l)?;
    check_counts(*nb as usize, *na as usize)?;
    let (feedforward, feedback) = cut(coefficients, *nb, *na, format)?;
    Ok(Fields {
        name,
        form,
        rounding,
        overflow,
        whole_bits: *k,
        fraction_bits: *l,
        feedforward,
        feedback,
    })
}

/// The fields of a record that lies in these bytes, or the first thing that is wrong with it.
pub fn examine(part: &[u8]) -> Result<Fields<'_>, RecordFault>
    ensures { MatchResult result (λ f. (part_fault part.now ≡ None) × (seen f ≡ material_in part.now)) (λ e. part_fault part.now ≡ Some e) }
{
    let [size, named @ ..] = part else {
        return Err(RecordFault::Empty);
    };
    let size = *size as usize;
    if size < 1 || size > 40 {
        return Err(RecordFault::NameSize);
    }
    if named.len() < size + 7 {
        return Err(RecordFault::TooShort);
    }
    let (name, tail) = named.split_at(size);
    if !all_printable(name) {
        return Err(RecordFault::NameByte);
    }
    examine_tail(name, tail)
}

// The name that a part of a file begins with.
fn part_name(part: &[u8]) -> &[u8]
    ensures { result.now ≡ name_in part.now }
{
    let [size, named @ ..] = part else {
        return part;
    };
    let n = (*size as usize).min(named.len());
    &named[0..n]
}

// Whether a part of a file begins with this name.
pub(crate) fn is_named(part: &[u8], name: &[u8]) -> bool
    ensures { result ≡ bytes_eq (name_in part.now) name.now }
{
    same_bytes(part_name(part), name)
}
