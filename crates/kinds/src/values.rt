ghost use Rattle.std.specs.Prelude.{◌^◌, ◌≤◌, unsigned_abs};

use arithmetic::setting::FixedPoint;

// A kind of value, or a lent one, under a checked setting: the values that a run is worked over.
#[derive(Drop)]
pub struct Values<K, R, O> {
    pub kind: K,
    pub setting: FixedPoint<R, O>,
}

// A bare word.
#[derive(Clone, Copy, PartialEq, Eq, Debug)]
pub struct Word {
    pub word: i32,
}

// A word, with the ends between which the exact number lies, in ticks (1/4096 of a step) from the word.
#[derive(Clone, Copy, PartialEq, Eq, Debug)]
pub struct Enclosed {
    pub word: i32,
    pub low: i64,
    pub high: i64,
    ghost near: { (unsigned_abs low ≤ 2 ^ 38) × (unsigned_abs high ≤ 2 ^ 38) },
}

// Two ends that are being worked out: so near that their move still fits 64 bits.
#[derive(Clone, Copy)]
pub(crate) struct Ends {
    pub(crate) low: i64,
    pub(crate) high: i64,
    ghost wide: { (unsigned_abs low ≤ 2 ^ 61) × (unsigned_abs high ≤ 2 ^ 61) },
}

// A peak in steps and a ceiling in ticks: the largest magnitude of a word, and its largest distance from the exact number.
#[derive(Clone, Copy, PartialEq, Eq, Debug)]
pub struct Bound {
    pub peak: u32,
    pub ceiling: u64,
    ghost small: { ceiling ≤ 2 ^ 38 },
}
