//! Cases of the three forms of a filter.
ghost use Rattle.std.specs.Prelude.{◌≡◌, [], ◌∷◌, IfOk};
ghost use Rattle.conformance.specs.Letters.{form_letter};
ghost use Rattle.forms.specs.declared.form.Form.{Form};

use crate::fault::Fault;
use crate::numbers::read_list;
use crate::settings::read_letter;
use crate::show::List;
use crate::wirings::Drawn;
use forms::form::Form;

/// The wiring of a form, and its coefficients.
pub fn print_form(rt: &HostRuntime, form: &str, b: &str, a: &str) -> Result<(), Fault>
    ensures { IfOk result (λ _. (f : Form) × (form.now ≡ form_letter f ∷ [])) }
{
    let heap = rt.alloc();
    let form: Form = read_letter(form)?;
    let b = read_list::<i32>(heap, b)?;
    let a = read_list::<i32>(heap, a)?;
    match form.build(heap, &b, &a) {
        Ok(filter) => println!(rt;
            "{} {}",
            Drawn(&filter.wiring),
            List(filter.coefficients.as_slice())
        )?,
        Err(fault) => println!(rt; "refused {}", fault.number().ok_or(Fault::Memory)?)?,
    }
    Ok(())
}
