use materials::check;
use materials::record::Record;
use materials::refusal::Refusal;
use std::alloc::{AllocError, Global};

// The example file: "oak panel" and "echo wall", in 64 bytes.
pub const EXAMPLE: [u8; 64] = [
    0, 2, 0, 0, 0, 14, 0, 25, 0, 0, 0, 39, 0, 25, 9, b'o', b'a', b'k', b' ', b'p', b'a', b'n',
    b'e', b'l', b'1', b'Z', b'W', 4, 4, 1, 1, 0, 0, 0, 8, 255, 255, 255, 248, 9, b'e', b'c', b'h',
    b'o', b' ', b'w', b'a', b'l', b'l', b'1', b'Z', b'W', 4, 4, 1, 1, 0, 0, 0, 16, 255, 255, 255,
    240,
];

// What a check or a write tells of a file or a list.
#[derive(Clone, Copy, Debug, PartialEq, Eq)]
pub enum Told {
    Accepted,
    // Refused by this number.
    Refused(u8),
    // Refused by this number, which speaks of the record of the second number.
    InRecord(u8, usize),
    OutOfMemory,
}

impl From<Refusal> for Told {
    fn from(refusal: Refusal) -> Told {
        match (refusal.number(), refusal.record()) {
            (Some(number), Some(record)) => Told::InRecord(number, record),
            (Some(number), None) => Told::Refused(number),
            (None, _) => Told::OutOfMemory,
        }
    }
}

// What the check of a file tells.
pub fn told_of(file: &[u8]) -> Told {
    match check::check(file) {
        Ok(_) => Told::Accepted,
        Err(refusal) => Told::from(refusal),
    }
}

// What a record is made of in these tests: all but its name, by counts.
#[derive(Clone, Copy)]
pub struct Sort {
    pub letters: (char, char, char),
    pub bits: (u8, u8),
    pub counts: (usize, usize),
    pub coefficient: i32,
}

pub const PANEL: Sort = Sort {
    letters: ('1', 'Z', 'W'),
    bits: (4, 4),
    counts: (1, 1),
    coefficient: 8,
};

// A record of this name whose coefficients are all the same.
pub fn record(heap: Global, name: &[u8], sort: Sort) -> Result<Record, AllocError> {
    let (form, rounding, overflow) = sort.letters;
    let (whole_bits, fraction_bits) = sort.bits;
    let (nb, na) = sort.counts;
    Ok(Record {
        name: Vec::from_slice(heap, name)?,
        form,
        rounding,
        overflow,
        whole_bits,
        fraction_bits,
        feedforward: vec![in heap; sort.coefficient; nb]?,
        feedback: vec![in heap; sort.coefficient; na]?,
    })
}

// So many records with the largest names and lists there are, each with a name of its own.
pub fn largest(heap: Global, count: usize) -> Result<Vec<Record>, AllocError> {
    let mut out = Vec::new(heap);
    for i in 0..count {
        let mut name = [b'x'; 40];
        name[0] = b'a' + (i / 26 % 26) as u8;
        name[1] = b'a' + (i % 26) as u8;
        out.push(record(
            heap,
            &name,
            Sort {
                letters: ('T', 'N', 'X'),
                bits: (12, 12),
                counts: (9, 8),
                coefficient: -1,
            },
        )?)?;
    }
    Ok(out)
}
