//! Cases of channels, worked with lists of calls.
use crate::calls::{read_calls, read_limits};
use crate::case::Case;
use crate::fault::Fault;
use crate::numbers::{read_length, read_list};
use crate::settings::Chosen;
use crate::show::{List, One, Refused, Shown, Watching};
use crate::values::{row_of, value_of};
use crate::wirings::read_wiring;
use kinds::kind::Kind;
use replay::log::{Entry, ReplayFault, Told};
use replay::replay::replay;
use wiring::graph::Filter;

// The line of a log's entry.
fn print_entry<V: Shown>(rt: &HostRuntime, entry: &Entry<V>) -> Result<(), Fault> {
    match &entry.told {
        Told::Opened => rt.print("opened")?,
        Told::Fed { output, nodes } => print!(rt;
            "fed {} {}",
            One(output),
            List(nodes.as_slice())
        )?,
        Told::Swapped => rt.print("swapped")?,
        Told::Hushed => rt.print("hushed")?,
        Told::Refused(fault) => print!(rt; "{}", Refused::from(*fault))?,
    }
    println!(rt;
        " {} {}",
        List(entry.registers.as_slice()),
        Watching(entry.watch)
    )?;
    Ok(())
}

// The lines of a log.
fn print_log<V: Shown>(rt: &HostRuntime, log: &[Entry<V>]) -> Result<(), Fault> {
    for entry in log {
        print_entry(rt, entry)?;
    }
    Ok(())
}

/// What open tells, and then each call.
pub struct Run;

impl Case for Run {
    // Opens a channel over a kind and works its calls, as the fields after the kind say.
    fn work<K: Kind + Drop>(
        rt: &HostRuntime,
        kind: K,
        setting: &Chosen,
        fields: &[&str],
    ) -> Result<(), Fault>
    where
        K::Value: Shown,
    {
        let heap = rt.alloc();
        let [row, watch, wiring, coefficients, calls @ ..] = fields else {
            return Err(Fault::Unread);
        };
        let limits = read_limits(watch)?;
        let filter = Filter {
            wiring: read_wiring(heap, wiring)?,
            coefficients: read_list(heap, coefficients)?,
        };
        let zero = value_of(&kind, setting, 0);
        let calls = read_calls(heap, zero.as_ref(), calls)?;
        let mut row = row_of(heap, zero.as_ref(), read_length(row)?)?;
        match replay(heap, kind, setting, filter, limits, &mut row, &calls) {
            Ok(log) => print_log(rt, &log),
            Err(ReplayFault::Open(fault)) => {
                println!(rt; "refused {}", fault.number())?;
                Ok(())
            },
            Err(ReplayFault::Memory) => Err(Fault::Memory),
        }
    }
}
