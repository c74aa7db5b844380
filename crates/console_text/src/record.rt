//! What a record asks for: its setting, its filter and the limits of its watch.
ghost use Rattle.std.specs.Prelude.{◌≡◌, ◌+◌, pos, IfOk};
ghost use Rattle.wiring.specs.Graphs.{graph_of};
ghost use Rattle.materials.specs.Layout.{meaning};
ghost use Rattle.console_text.specs.Watching.{SheetLimits};
ghost use Rattle.console_text.specs.Sessions.{wiring_in, coefficients_in, range_in};

use crate::halt::Halt;
use arithmetic::choice::{OverflowChoice, RoundingChoice};
use arithmetic::setting::Setting;
use channel::state::Limits;
use forms::form::Form;
use materials::record::Record;
use sheet::sheet::figures;
use std::alloc::Global;
use wiring::graph::Filter;

/// A setting whose rules are those that a record's letters stand for.
pub(crate) type Chosen = Setting<RoundingChoice, OverflowChoice>;

/// The filter of a record in a form.
pub(crate) fn filter_of(heap: Global, item: &Record, form: Form) -> Result<Filter, Halt>
    ensures { IfOk result (λ f. (graph_of f.wiring ≡ wiring_in (meaning item.now) form) × (f.coefficients.items ≡ coefficients_in (meaning item.now))) }
{
    Ok(form.build(heap, item.feedforward.as_slice(), item.feedback.as_slice())?)
}

// The range and the count of the sheet, where it is granted.
fn sheet_limits(setting: &Chosen, filter: Filter, range: i32) -> Option<Limits>
    ensures { SheetLimits setting.now (graph_of filter.wiring) filter.coefficients.items range result }
{
    let figures = figures(setting, filter, range).ok()?;
    Some(Limits {
        range: range.unsigned_abs(),
        count: figures.count,
    })
}

/// The limits of the watch on a record's channel: those of its sheet, where it is granted.
pub(crate) fn limits_of(
    heap: Global,
    item: &Record,
    form: Form,
    setting: &Chosen,
) -> Result<Option<Limits>, Halt>
    ensures { IfOk result (SheetLimits setting.now (wiring_in (meaning item.now) form) (coefficients_in (meaning item.now)) (pos (range_in (item.now.whole_bits + item.now.fraction_bits)))) }
{
    let filter = filter_of(heap, item, form)?;
    let range = item.format()?.width().quarter();
    Ok(sheet_limits(setting, filter, range))
}
