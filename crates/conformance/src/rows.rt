//! Cases of channels that show the whole of the lent rows.
use crate::case::Case;
use crate::fault::Fault;
use crate::numbers::{number, read_length, read_list};
use crate::settings::Chosen;
use crate::show::{List, One, Refused, Shown};
use crate::values::{row_of, value_of};
use crate::wirings::read_wiring;
use arithmetic::choice::{OverflowChoice, RoundingChoice};
use channel::channel::Channel;
use kinds::kind::Kind;
use wiring::graph::Filter;

// Feeds one sample and prints its line.
fn print_feed<K: Kind>(
    rt: &HostRuntime,
    channel: &mut Channel<K, RoundingChoice, OverflowChoice>,
    registers: &mut [K::Value],
    working: &mut [K::Value],
    sample: i32,
) -> Result<(), Fault>
where
    K::Value: Shown,
{
    match channel.feed(registers, working, sample) {
        Ok(output) => print!(rt; "fed {}", One(&output))?,
        Err(fault) => print!(rt; "{}", Refused::from(fault))?,
    }
    println!(rt; " {} {}", List(registers), List(working))?;
    Ok(())
}

// The sample that fills the rows, from -100 to 100.
fn read_fill(text: &str) -> Result<i32, Fault> {
    number(text)
        .filter(|n| -100 <= *n && *n <= 100)
        .ok_or(Fault::Unread)
}

/// What open leaves in the register row, and then what each feed leaves in both rows.
pub struct Rows;

impl Case for Rows {
    // Opens a channel over a kind and feeds it, as the fields after the kind say.
    fn work<K: Kind + Drop>(
        rt: &HostRuntime,
        kind: K,
        setting: &Chosen,
        fields: &[&str],
    ) -> Result<(), Fault>
    where
        K::Value: Shown,
    {
        let heap = rt.alloc();
        let [row, working, fill, wiring, coefficients, samples] = fields else {
            return Err(Fault::Unread);
        };
        let fill = value_of(&kind, setting, read_fill(fill)?);
        let mut row = row_of(heap, fill.as_ref(), read_length(row)?)?;
        let mut working = row_of(heap, fill.as_ref(), read_length(working)?)?;
        let filter = Filter {
            wiring: read_wiring(heap, wiring)?,
            coefficients: read_list(heap, coefficients)?,
        };
        let samples: Vec<i32> = read_list(heap, samples)?;
        match Channel::open(kind, setting, filter, &mut row, None) {
            Ok(mut channel) => {
                println!(rt; "opened {}", List(&row))?;
                for sample in &samples {
                    print_feed(rt, &mut channel, &mut row, &mut working, *sample)?;
                }
            }
            Err(fault) => println!(rt; "refused {} {}", fault.number(), List(&row))?,
        }
        Ok(())
    }
}
