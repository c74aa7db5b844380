ghost use Rattle.std.specs.Prelude.{◌≡◌};
ghost use Rattle.kinds.specs.Arithmetics.{number as refusal_number};

// Why a kind of value refuses an operation.
#[derive(Clone, Copy, PartialEq, Eq, Debug)]
pub enum Refusal {
    // The overflow rule stops.
    Overflow,
    // An end of the enclosure lies beyond 2^38 ticks either side.
    End,
    // The peak is above the largest word.
    Peak,
    // The ceiling is above 2^38 ticks.
    Ceiling,
}

impl Refusal {
    // The number of the refusal.
    pub fn number(self) -> u32
        ensures { result ≡ refusal_number self }
    {
        match self {
            Refusal::Overflow => 18,
            Refusal::End => 19,
            Refusal::Peak => 21,
            Refusal::Ceiling => 22,
        }
    }
}
