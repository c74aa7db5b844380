// Exact numbers, whole numbers over powers of two: definitions and laws that the other crates' contracts rest on.
#![tactic(auto)]

ghost use Rattle.exact.specs.Laws.{NumberLaws, EnclosureLaws};

// Exact numbers keep the laws of numbers.
pub fn numbers_keep_their_laws() -> u8
    ensures { NumberLaws }
{
    0
}

// Enclosures of exact numbers pass through sums, differences and scales.
pub fn enclosures_pass() -> u8
    ensures { EnclosureLaws }
{
    0
}
