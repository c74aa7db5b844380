ghost use Rattle.std.specs.Prelude.{◌≡◌};
ghost use Rattle.arithmetic.specs.Formats.{format_fault};

use arithmetic::format::{Format, FormatFault};
use arithmetic::overflow::{Overflow, Saturate, Stop, Wrap};
use arithmetic::rounding::{Floor, Nearest, Rounding, TowardZero};
use arithmetic::setting::Setting;
use std::test::Fail;

// What is wrong with a format of so many bits.
fn fault(whole: u32, fraction: u32) -> Option<FormatFault>
    ensures { result ≡ format_fault whole fraction }
{
    Format::new(whole, fraction).err()
}

// The same by way of a setting.
fn setting_fault(whole: u32, fraction: u32) -> Option<FormatFault>
    ensures { result ≡ format_fault whole fraction }
{
    let setting = Setting {
        whole,
        fraction,
        rounding: Floor,
        overflow: Wrap,
    };
    setting.check().err()
}

#[test]
fn widths(rt: HostRuntime) {
    assert_eq!(rt; fault(3, 4), Some(FormatFault::Width));
    assert_eq!(rt; fault(4, 4), None);
    assert_eq!(rt; fault(12, 12), None);
    assert_eq!(rt; fault(13, 12), Some(FormatFault::Width));
    assert_eq!(rt; fault(0, 8), Some(FormatFault::Whole));
    assert_eq!(rt; fault(8, 0), Some(FormatFault::Fraction));
}

#[test]
fn setting_widths(rt: HostRuntime) {
    assert_eq!(rt; setting_fault(3, 4), Some(FormatFault::Width));
    assert_eq!(rt; setting_fault(4, 4), None);
    assert_eq!(rt; setting_fault(12, 12), None);
    assert_eq!(rt; setting_fault(13, 12), Some(FormatFault::Width));
}

// 5 × 7 and -5 × 7 over 2^4, then the two halves.
#[test]
fn divisions(rt: HostRuntime) -> Result<(), Fail> {
    let format = Format::new(4, 4)?;
    assert_eq!(rt; Floor.divide(35, &format), (2, 3));
    assert_eq!(rt; Floor.divide(-35, &format), (-3, 13));
    assert_eq!(rt; TowardZero.divide(35, &format), (2, 3));
    assert_eq!(rt; TowardZero.divide(-35, &format), (-2, -3));
    assert_eq!(rt; Nearest.divide(35, &format), (2, 3));
    assert_eq!(rt; Nearest.divide(-35, &format), (-2, -3));
    assert_eq!(rt; Nearest.divide(8, &format), (1, -8));
    assert_eq!(rt; Nearest.divide(-8, &format), (0, -8));
    Ok(())
}

#[test]
fn divisions_of_the_ends(rt: HostRuntime) -> Result<(), Fail> {
    let format = Format::new(4, 4)?;
    assert_eq!(rt; Floor.divide(i64::MIN, &format), (-576460752303423488, 0));
    assert_eq!(rt; Floor.divide(i64::MAX, &format), (576460752303423487, 15));
    assert_eq!(rt; Nearest.divide(i64::MIN, &format), (-576460752303423488, 0));
    assert_eq!(rt; Nearest.divide(i64::MAX, &format), (576460752303423488, -1));
    assert_eq!(rt;
        TowardZero.divide(i64::MIN, &format),
        (-576460752303423488, 0)
    );
    assert_eq!(rt;
        TowardZero.divide(i64::MAX, &format),
        (576460752303423487, 15)
    );
    Ok(())
}

#[test]
fn reaches(rt: HostRuntime) -> Result<(), Fail> {
    let format = Format::new(4, 4)?;
    assert_eq!(rt; Floor.reach(u64::MAX, &format), 1152921504606846976);
    assert_eq!(rt; Nearest.reach(u64::MAX, &format), 1152921504606846976);
    assert_eq!(rt; TowardZero.reach(u64::MAX, &format), 1152921504606846975);
    assert_eq!(rt; Floor.reach(33, &format), 3);
    assert_eq!(rt; Nearest.reach(39, &format), 2);
    assert_eq!(rt; Nearest.reach(40, &format), 3);
    assert_eq!(rt; TowardZero.reach(47, &format), 2);
    Ok(())
}

// 100 + 100 at 8 bits, then the ends.
#[test]
fn stores(rt: HostRuntime) -> Result<(), Fail> {
    let format = Format::new(4, 4)?;
    let width = format.width();
    assert_eq!(rt; Saturate.store(200, width), Some(127));
    assert_eq!(rt; Wrap.store(200, width), Some(-56));
    assert_eq!(rt; Stop.store(200, width), None);
    assert_eq!(rt; Saturate.store(i64::MIN, width), Some(-128));
    assert_eq!(rt; Saturate.store(i64::MAX, width), Some(127));
    assert_eq!(rt; Wrap.store(i64::MIN, width), Some(0));
    assert_eq!(rt; Wrap.store(i64::MAX, width), Some(-1));
    assert_eq!(rt; Stop.store(i64::MIN, width), None);
    assert_eq!(rt; Stop.store(i64::MAX, width), None);
    Ok(())
}
