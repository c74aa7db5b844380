//! Cases of the rounding and overflow rules by themselves.
ghost use Rattle.std.specs.Prelude.{◌≡◌, IfSome};
ghost use Rattle.arithmetic.specs.Formats.{width};

use crate::fault::Fault;
use crate::numbers::{number, read_number};
use crate::settings::read_letter;
use arithmetic::choice::{OverflowChoice, RoundingChoice};
use arithmetic::format::Format;
use arithmetic::overflow::Overflow;
use arithmetic::rounding::Rounding;

// The format of 24 bits with so many fraction bits.
fn format_of(fraction: u32) -> Option<Format>
    ensures { IfSome result (λ f. (f.fraction ≡ fraction) × (width f ≡ 24)) }
{
    let whole = 24u32.checked_sub(fraction)?;
    Format::new(whole, fraction).ok()
}

// The format of 24 bits whose fraction bits a field says.
fn read_format(bits: &str) -> Result<Format, Fault> {
    format_of(read_number(bits)?).ok_or(Fault::Unread)
}

/// A quotient with its remainder.
pub fn print_round(rt: &HostRuntime, rule: &str, bits: &str, p: &str) -> Result<(), Fault> {
    let rule: RoundingChoice = read_letter(rule)?;
    let format = read_format(bits)?;
    let (q, r) = rule.divide(read_number(p)?, &format);
    println!(rt; "{q} {r}")?;
    Ok(())
}

// The largest magnitude that a reach is asked of.
const MAX_MAGNITUDE: u64 = 1 << 62;

/// A rule's share, and its reach of a magnitude.
pub fn print_reach(rt: &HostRuntime, rule: &str, bits: &str, m: &str) -> Result<(), Fault> {
    let rule: RoundingChoice = read_letter(rule)?;
    let format = read_format(bits)?;
    let m = number(m)
        .filter(|m| *m <= MAX_MAGNITUDE)
        .ok_or(Fault::Unread)?;
    println!(rt; "{} {}", rule.share(), rule.reach(m, &format))?;
    Ok(())
}

/// The word that a rule stores at a width. Widths are those of formats, 8 to 24.
pub fn print_stored(rt: &HostRuntime, rule: &str, bits: &str, raw: &str) -> Result<(), Fault> {
    let rule: OverflowChoice = read_letter(rule)?;
    let fraction = read_number::<u32>(bits)?.saturating_sub(1);
    let raw = read_number(raw)?;
    let format = Format::new(1, fraction).map_err(|_| Fault::Unread)?;
    match rule.store(raw, format.width()) {
        Some(word) => println!(rt; "{word}")?,
        None => rt.println("stopped")?,
    }
    Ok(())
}
