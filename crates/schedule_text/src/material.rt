//! One material: its filter, the call for its sheet, and what that tells.
ghost use Rattle.std.specs.Prelude.{◌≡◌, IfOk, None};
ghost use Rattle.materials.specs.Layout.{meaning};
ghost use Rattle.materials.specs.Lists.{record_fault};
ghost use Rattle.schedule_text.specs.Outcomes.{OutcomeOf, FilterOf, told_by};

use crate::outcome::Outcome;
use forms::form::{Form, FormFault};
use materials::record::Record;
use sheet::figures::{Figures, SheetFault};
use sheet::sheet::figures;
use std::alloc::{AllocError, Global};
use wiring::graph::Filter;

// The filter of a good record in a form.
fn filter(heap: Global, form: Form, item: &Record) -> Result<Filter, AllocError>
    requires { record_fault item.now ≡ None }
    ensures { IfOk result (FilterOf form (meaning item.now)) }
{
    match form.build(heap, item.feedforward.as_slice(), item.feedback.as_slice()) {
        Ok(filter) => Ok(filter),
        // A match in a match: `map_err` would have to answer in the cases that cannot be, and in one pattern the proof would not learn which case it is.
        Err(fault) => match fault {
            FormFault::Memory => Err(AllocError),
            FormFault::Numerator | FormFault::Denominator => unreachable!(),
        },
    }
}

// What the schedule tells of the call for a sheet, unless the call itself was refused.
fn told(answer: Result<Figures, SheetFault>) -> Option<Outcome>
    ensures { result ≡ told_by answer }
{
    match answer {
        Ok(figures) => Some(Outcome::Fits(figures)),
        Err(SheetFault::Node(node, refusal)) => Some(Outcome::NoSheet {
            number: refusal.number(),
            node,
        }),
        Err(_) => None,
    }
}

// What the schedule tells of a good record.
pub(crate) fn outcome(heap: Global, item: &Record) -> Result<Outcome, AllocError>
    requires { record_fault item.now ≡ None }
    ensures { IfOk result (OutcomeOf (meaning item.now)) }
{
    let choices = item.choices().unwrap();
    let format = item.format().unwrap();
    let filter = filter(heap, choices.form, item)?;
    let setting = item.setting(choices);
    let answer = figures(&setting, filter, format.width().quarter());
    Ok(told(answer).unwrap())
}
