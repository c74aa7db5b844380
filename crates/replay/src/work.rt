ghost use Rattle.std.specs.Prelude.{◌≡◌, ◌≤◌, List, length, drop, IfOk};
ghost use Rattle.channel.specs.Channels.{feed, swap, hush};
ghost use Rattle.channel.specs.Running.{registers_in};
ghost use Rattle.replay.specs.Log.{lent};
ghost use Rattle.replay.specs.Replaying.{Works};

use crate::log::{Call, Told};
use arithmetic::overflow::Overflow;
use arithmetic::rounding::Rounding;
use channel::channel::Channel;
use kinds::kind::Kind;
use std::alloc::{AllocError, Global};

// Feeds a sample, with a copy of the working row, and copies the nodes' values out of it.
fn feed_on<K: Kind, R: Rounding, O: Overflow>(
    heap: Global,
    channel: &mut Channel<K, R, O>,
    row: &mut [K::Value],
    working: &[K::Value],
    sample: i32,
) -> Result<Told<K::Value>, AllocError>
    ensures works { IfOk result (λ t. Works K.Kind.model R.Rounding.rule O.Overflow.rule channel.old row.old (feed (length row.old) (length working.now) sample) channel.new row.new t) }
    ensures rest { drop (registers_in channel.old) row.new ≡ drop (registers_in channel.old) row.old }
{
    let nodes = channel.nodes();
    let mut places = Vec::from_slice(heap, working)?;
    match channel.feed(row, &mut places, sample) {
        Ok(output) => {
            let nodes = Vec::from_slice(heap, &places[0..nodes])?;
            Ok(Told::Fed { output, nodes })
        }
        Err(fault) => Ok(Told::Refused(fault)),
    }
}

// Puts in other coefficients.
fn swap_on<K: Kind, R: Rounding, O: Overflow>(
    channel: &mut Channel<K, R, O>,
    coefficients: &[i32],
) -> Told<K::Value>
    ensures { (row : List _) → Works K.Kind.model R.Rounding.rule O.Overflow.rule channel.old row (swap coefficients.now) channel.new row result }
{
    match channel.swap(coefficients) {
        Ok(()) => Told::Swapped,
        Err(fault) => Told::Refused(fault),
    }
}

// Sets the registers to zero.
fn hush_on<K: Kind, R: Rounding, O: Overflow>(
    channel: &mut Channel<K, R, O>,
    row: &mut [K::Value],
) -> Told<K::Value>
    ensures { Works K.Kind.model R.Rounding.rule O.Overflow.rule channel.old row.old (hush (length row.old)) channel.new row.new result }
{
    match channel.hush(row) {
        Ok(()) => Told::Hushed,
        Err(fault) => Told::Refused(fault),
    }
}

// Works one call on the channel, with the places of the row that it is lent.
pub(crate) fn work<K: Kind, R: Rounding, O: Overflow>(
    heap: Global,
    channel: &mut Channel<K, R, O>,
    row: &mut [K::Value],
    call: &Call<K::Value>,
) -> Result<Told<K::Value>, AllocError>
    requires { registers_in channel.old ≤ length row.old }
    ensures works { IfOk result (λ t. Works K.Kind.model R.Rounding.rule O.Overflow.rule channel.old row.old (lent (length row.old) call.now) channel.new row.new t) }
    ensures rest { drop (registers_in channel.old) row.new ≡ drop (registers_in channel.old) row.old }
{
    match call {
        Call::Feed {
            registers,
            working,
            sample,
        } => {
            let count = (*registers).min(row.len());
            // The proof takes the two ways apart at the `?`.
            Ok(feed_on(heap, channel, &mut row[0..count], working, *sample)?)
        }
        Call::Swap(coefficients) => Ok(swap_on(channel, coefficients)),
        Call::Hush { registers } => {
            let count = (*registers).min(row.len());
            Ok(hush_on(channel, &mut row[0..count]))
        }
    }
}
