//! A session: the channel of a record, worked by the lines of an input.
ghost use Rattle.std.specs.Prelude.{◌≡◌, length, IfOk, Some, Err, string_bytes, MatchResult};
ghost use Rattle.wiring.specs.Graphs.{graph_of};
ghost use Rattle.materials.specs.Layout.{meaning};
ghost use Rattle.materials.specs.Refusals.{RefusedOrMemory, number as refusal_number};
ghost use Rattle.materials.specs.Files.{look_up_refusal};
ghost use Rattle.console_text.specs.Halts.{halted};
ghost use Rattle.console_text.specs.Sessions.{LoggedCalls, Session};
ghost use Rattle.console_text.specs.Consoles.{StandsFor, OverKind, ConsoleText};

use crate::halt::Halt;
use crate::pieces::lines;
use crate::record::{Chosen, filter_of, limits_of};
use crate::rows::RowMaker;
use crate::script::read_script;
use crate::show::Shown;
use crate::text::session_text;
use channel::state::Limits;
use kinds::bounds::BoundKind;
use kinds::enclosures::EnclosedKind;
use kinds::kind::Kind;
use kinds::words::WordKind;
use materials::look_up::look_up;
use materials::read::read;
use materials::record::Record;
use materials::refusal::Refusal;
use replay::log::{Call, Entry};
use replay::replay::replay;
use std::alloc::Global;
use wiring::graph::Filter;

// The log of a list of calls on the channel of a filter.
fn replayed<K: Kind + Drop>(
    heap: Global,
    kind: K,
    setting: &Chosen,
    filter: Filter,
    limits: Option<Limits>,
    rows: &RowMaker<K::Value>,
    calls: &[Call<K::Value>],
) -> Result<Vec<Entry<K::Value>>, Halt>
    requires { rows.now.registers ≡ length (graph_of filter.wiring).sources }
    ensures { IfOk result (λ log. LoggedCalls K.Kind.model kind setting.now (graph_of filter.wiring) filter.coefficients.items limits calls.now log.items) }
{
    let mut row = rows.zeros(heap, rows.registers)?;
    Ok(replay(heap, kind, setting, filter, limits, &mut row, calls)?)
}

/// The text of a session on a record's channel over a kind of value: the first line, with the kind's name, then the answer to each line of the input.
pub fn work<K: Kind + Drop>(
    heap: Global,
    kind: K,
    name: &str,
    item: &Record,
    input: &[u8],
) -> Result<String, Halt>
where
    K::Value: Shown,
    ensures { IfOk result (λ s. Session K.Kind.model K.Value.fields kind name.now (meaning item.now) input.now (string_bytes s)) }
{
    let choices = item.choices()?;
    let setting = item.setting(choices);
    let limits = limits_of(heap, item, choices.form, &setting)?;
    let filter = filter_of(heap, item, choices.form)?;
    let lines = lines(heap, input)?;
    let rows = RowMaker {
        registers: filter.wiring.sources.len(),
        nodes: filter.wiring.nodes.len(),
        zero: kind.zero(&setting.check()?),
    };
    let script = read_script(heap, lines.as_slice(), &rows)?;
    let log = replayed(
        heap,
        kind,
        &setting,
        filter,
        limits,
        &rows,
        script.calls.as_slice(),
    )?;
    Ok(session_text(heap, name, limits, script.marks.as_slice(), log.as_slice())?)
}

// The record of this name, or why the file or the look-up is refused.
fn record_of(heap: Global, file: &[u8], name: &[u8]) -> Result<Record, Refusal>
    ensures { MatchResult result (λ item. StandsFor file.now name.now (meaning item)) (RefusedOrMemory (look_up_refusal file.now name.now)) }
{
    let found = look_up(file, name)?;
    let mut records = read(heap, file)?;
    Ok(records.remove(found.number - 1))
}

// The text of a session on a record, over the kind of a name.
fn over_kind(heap: Global, kind: &str, item: &Record, input: &[u8]) -> Result<String, Halt>
    ensures { IfOk result (λ s. OverKind kind.now (meaning item.now) input.now (string_bytes s)) }
{
    // An enum of the kinds would be matched once more, and the text needs the name.
    match kind {
        "word" => work(heap, WordKind, kind, item, input),
        "enclosed" => work(heap, EnclosedKind, kind, item, input),
        "bound" => work(heap, BoundKind, kind, item, input),
        _ => Err(Halt::UnknownKind),
    }
}

/// The text of a session on the record of a name, over a kind: `word`, `enclosed` or `bound`.
///
/// A refused file and an unknown name are told by their number.
pub fn session(
    heap: Global,
    file: &[u8],
    name: &[u8],
    kind: &str,
    input: &[u8],
) -> Result<String, Halt>
    ensures told { IfOk result (λ s. ConsoleText file.now name.now kind.now input.now (string_bytes s)) }
    ensures refused { (e : Refusal) → look_up_refusal file.now name.now ≡ Some e → result ≡ Err (halted (refusal_number e)) }
{
    let item = record_of(heap, file, name)?;
    over_kind(heap, kind, &item, input)
}
