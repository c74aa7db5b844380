use crate::digest::{Digest, mix};
use anyhow::anyhow;
use arithmetic::overflow::{Overflow, Wrap};
use arithmetic::rounding::{Rounding, TowardZero};
use arithmetic::setting::Setting;
use channel::channel::Channel;
use channel::state::Limits;
use forms::form::Form;
use kinds::kind::Kind;
use materials::record::Record;
use std::alloc::Global;
use wiring::graph::Filter;

// The record's format, toward zero and wrapping. The rules are types here, where a record's own setting chooses them at run time.
pub fn setting_of(record: &Record) -> Setting<TowardZero, Wrap> {
    Setting {
        whole: u32::from(record.whole_bits),
        fraction: u32::from(record.fraction_bits),
        rounding: TowardZero,
        overflow: Wrap,
    }
}

// The record's filter in direct form 1.
pub fn filter_of(heap: Global, record: &Record) -> anyhow::Result<Filter> {
    Form::Direct1
        .build(heap, &record.feedforward, &record.feedback)
        .map_err(|_| anyhow!("the filter is refused"))
}

// Feeds so many samples of 12 bits, and answers the digest of the outputs and refusals.
fn drive<K: Kind, R: Rounding, O: Overflow>(
    channel: &mut Channel<K, R, O>,
    registers: &mut [K::Value],
    working: &mut [K::Value],
    count: u64,
) -> u64
where
    K::Value: Digest,
{
    let mut digest = 0u64;
    let mut noise = 1u32;
    for _ in 0..count {
        noise = noise.wrapping_mul(1664525).wrapping_add(1013904223);
        let sample = (noise >> 20) as i32 - 2048;
        digest = match channel.feed(registers, working, sample) {
            Ok(output) => output.mix_into(digest),
            Err(fault) => mix(digest, u64::from(fault.number())),
        };
    }
    digest
}

// Opens the record's channel over a kind of value and feeds it.
pub fn feed_all<K: Kind + Drop>(
    heap: Global,
    kind: K,
    record: &Record,
    count: u64,
) -> anyhow::Result<u64>
where
    K::Value: Digest,
{
    let setting = setting_of(record);
    let filter = filter_of(heap, record)?;
    let checked = setting
        .check()
        .map_err(|_| anyhow!("the format is refused"))?;
    let zero = kind.zero(&checked);
    let mut registers = vec![in heap; zero; filter.wiring.sources.len()]?;
    let mut working = vec![in heap; zero; filter.wiring.nodes.len()]?;
    let mut channel = Channel::open(
        kind,
        &setting,
        filter,
        &mut registers,
        Some(Limits {
            range: 2047,
            count: 100,
        }),
    )
    .map_err(|_| anyhow!("the channel is refused"))?;
    Ok(drive(&mut channel, &mut registers, &mut working, count))
}
