ghost use Rattle.std.specs.Prelude.{◌+◌, ◌^◌, ◌≤◌, unsigned_abs};

// The methods have a file of their own, since their contracts cite definitions that speak of these types.
mod methods;

// How many bits of a word are whole, sign included, and how many are its fraction. Both are at least 1, and together 8 to 24.
#[derive(Clone, Copy)]
pub struct Format {
    pub(crate) whole: u32,
    pub(crate) fraction: u32,
    ghost sound: { (1 ≤ whole) × (1 ≤ fraction) × (8 ≤ whole + fraction) × (whole + fraction ≤ 24) },
}

// Why there is no such format.
#[derive(Clone, Copy, PartialEq, Eq, Debug)]
pub enum FormatFault {
    Whole,
    Fraction,
    Width,
}

// The bits of a word: 8 to 28, of which a format uses at most 24.
#[derive(Clone, Copy)]
pub struct Width {
    pub(crate) bits: u32,
    ghost sound: { (8 ≤ bits) × (bits ≤ 28) },
}

// A coefficient: a word of at most 24 bits.
#[derive(Clone, Copy)]
pub struct Coefficient {
    pub value: i32,
    ghost small: { unsigned_abs value ≤ 2 ^ 23 },
}
