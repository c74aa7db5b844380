ghost use Rattle.std.specs.Prelude.{◌≡◌};
ghost use Rattle.forms.specs.Built.{form_number};
ghost use Rattle.forms.specs.declared.form.FormFault.TheVariants.{Memory};

use std::alloc::AllocError;

// The most coefficients that a filter may have: b0 to b8, and a1 to a8.
pub const MAX_NUMERATOR: usize = 9;

pub const MAX_DENOMINATOR: usize = 8;

// How a filter is laid out as a wiring.
#[derive(Clone, Copy, PartialEq, Eq, Debug)]
pub enum Form {
    // Delayed inputs and outputs, one total.
    Direct1,
    // One delay line between the feedback and the output.
    Direct2,
    // Direct form 2 turned around: each register takes a total.
    Transposed2,
}

// Why no filter was built.
#[derive(Clone, Copy, PartialEq, Eq, Debug)]
pub enum FormFault {
    // No b coefficient, or too many.
    Numerator,
    // Too many a coefficients.
    Denominator,
    // Memory ran out.
    Memory,
}

impl From<AllocError> for FormFault {
    ghost from_gives = { λ _ r. r ≡ Memory };

    fn from(_e: AllocError) -> FormFault {
        FormFault::Memory
    }
}

impl FormFault {
    // The number by which the fault is refused; want of memory has none.
    pub fn number(self) -> Option<u32>
        ensures { result ≡ form_number self }
    {
        match self {
            FormFault::Numerator | FormFault::Denominator => Some(7),
            FormFault::Memory => None,
        }
    }
}
