ghost use Rattle.std.specs.Prelude.{◌≡◌, ◌≤◌, length, drop, IfOk};
ghost use Rattle.wiring.specs.Graphs.{graph_of};
ghost use Rattle.channel.specs.Running.{registers_in, holding};
ghost use Rattle.replay.specs.Log.{Shows};
ghost use Rattle.replay.specs.Replaying.{RowShows, RowLeft, Started, Logs, ReplayAnswer};

use crate::log::{Call, Entry, ReplayFault, Told};
use crate::work::work;
use arithmetic::overflow::Overflow;
use arithmetic::rounding::Rounding;
use arithmetic::setting::Setting;
use channel::channel::Channel;
use channel::state::Limits;
use kinds::kind::Kind;
use std::alloc::{AllocError, Global};
use wiring::graph::Filter;

// The entry of what was told: the registers and the watch as they are now. The row stays beside the channel, which is lent it at each call.
fn entry<K: Kind, R: Rounding, O: Overflow>(
    heap: Global,
    channel: &Channel<K, R, O>,
    row: &[K::Value],
    told: Told<K::Value>,
) -> Result<Entry<K::Value>, AllocError>
    requires { registers_in channel.now ≤ length row.now }
    ensures { IfOk result (λ e. Shows (holding channel.now row.now) e × (e.told ≡ told)) }
{
    Ok(Entry {
        registers: Vec::from_slice(heap, &row[..channel.registers()])?,
        watch: channel.watch(),
        told,
    })
}

// Works the calls in order on a channel as open left it, and logs each.
fn follow<K: Kind, R: Rounding, O: Overflow>(
    heap: Global,
    channel: &mut Channel<K, R, O>,
    row: &mut [K::Value],
    calls: &[Call<K::Value>],
) -> Result<Vec<Entry<K::Value>>, AllocError>
    requires row { registers_in channel.old ≤ length row.old }
    requires started { Started K.Kind.model R.Rounding.rule O.Overflow.rule channel.old row.old }
    ensures row { IfOk result (λ log. RowShows (registers_in channel.old) (length calls.now) log.items row.old row.new) }
    ensures log { IfOk result (λ log. Logs K.Kind.model R.Rounding.rule O.Overflow.rule channel.old (length row.old) calls.now log.items) }
    ensures rest { drop (registers_in channel.old) row.new ≡ drop (registers_in channel.old) row.old }
{
    let mut log = Vec::new(heap);
    let opened = entry(heap, channel, row, Told::Opened)?;
    log.push(opened)?;
    for call in calls {
        let told = work(heap, channel, row, call)?;
        let item = entry(heap, channel, row, told)?;
        log.push(item)?;
    }
    Ok(log)
}

// Opens a channel on the row, works the calls in order, and logs open and each call. The contract is the channel theorem, on the log's entries.
pub fn replay<K: Kind + Drop, R: Rounding, O: Overflow>(
    heap: Global,
    kind: K,
    setting: &Setting<R, O>,
    filter: Filter,
    limits: Option<Limits>,
    row: &mut [K::Value],
    calls: &[Call<K::Value>],
) -> Result<Vec<Entry<K::Value>>, ReplayFault>
    ensures row { RowLeft (length (graph_of filter.wiring).sources) (length calls.now) row.old row.new result }
    ensures log { ReplayAnswer K.Kind.model R.Rounding.rule O.Overflow.rule kind setting.now (graph_of filter.wiring) filter.coefficients.items limits (length row.old) calls.now result }
{
    let mut channel = Channel::open(kind, setting, filter, row, limits)?;
    Ok(follow(heap, &mut channel, row, calls)?)
}
