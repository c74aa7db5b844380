ghost use Rattle.std.specs.Prelude.{◌≡◌};
ghost use Rattle.forms.specs.Built.{BuildAnswer, SoundFilter, EquationKept};

use crate::coefficients::Coefficients;
use crate::direct1::direct1;
use crate::direct2::direct2;
use crate::form::{Form, FormFault, MAX_DENOMINATOR, MAX_NUMERATOR};
use crate::transposed2::transposed2;
use std::alloc::Global;
use wiring::graph::Filter;

impl Form {
    // The filter in this form; its coefficients are b0 and on, then a1 and on.
    pub fn build(self, heap: Global, b: &[i32], a: &[i32]) -> Result<Filter, FormFault>
        ensures answer { BuildAnswer self b.now a.now result }
        ensures sound { SoundFilter result }
        ensures equation { EquationKept b.now a.now result }
    {
        if b.is_empty() || b.len() > MAX_NUMERATOR {
            return Err(FormFault::Numerator);
        }
        if a.len() > MAX_DENOMINATOR {
            return Err(FormFault::Denominator);
        }
        let lists = Coefficients { b, a };
        let wiring = match self {
            Form::Direct1 => direct1(heap, lists)?,
            Form::Direct2 => direct2(heap, lists)?,
            Form::Transposed2 => transposed2(heap, lists)?,
        };
        let coefficients = [b, a].concat(heap)?;
        Ok(Filter {
            wiring,
            coefficients,
        })
    }
}
