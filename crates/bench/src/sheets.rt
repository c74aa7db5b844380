use crate::digest::{Digest, mix};
use crate::feeds::{filter_of, setting_of};
use materials::record::Record;
use sheet::figures::Figures;
use sheet::sheet::sheet;
use std::alloc::Global;
use wiring::limits::MAX_REGISTERS;

impl Digest for Figures {
    fn mix_into(&self, digest: u64) -> u64 {
        let output = mix(mix(digest, u64::from(self.peak)), self.ceiling);
        mix(mix(output, self.count), u64::from(self.band))
    }
}

// Makes the record's sheet for samples up to 2048, and answers the digest with its figures and its first peak and ceiling.
fn make(heap: Global, record: &Record, digest: u64) -> anyhow::Result<u64> {
    let filter = filter_of(heap, record)?;
    // Rows of its own and not `figures`: the digest has the box's first entries too.
    let mut peaks = [0u32; MAX_REGISTERS];
    let mut ceilings = [0u64; MAX_REGISTERS];
    let mut band = [0u32; MAX_REGISTERS];
    let answer = sheet(
        &setting_of(record),
        filter,
        2048,
        &mut peaks,
        &mut ceilings,
        &mut band,
    );
    let box_end = mix(mix(digest, u64::from(peaks[0])), ceilings[0]);
    match answer {
        Ok(figures) => Ok(figures.mix_into(box_end)),
        Err(fault) => Ok(mix(box_end, u64::from(fault.number()))),
    }
}

// Makes the record's sheet so many times, and answers the digest.
pub fn sheet_all(heap: Global, record: &Record, count: u64) -> anyhow::Result<u64> {
    let mut digest = 0u64;
    for _ in 0..count {
        digest = make(heap, record, digest)?;
    }
    Ok(digest)
}
