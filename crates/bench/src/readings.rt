use crate::digest::mix;
use materials::read::read;
use materials::record::Record;
use std::alloc::Global;

// The digest with a list of coefficients.
fn mix_words(digest: u64, words: &[i32]) -> u64 {
    words.iter().fold(digest, |all, word| mix(all, u64::from(word.unsigned_abs())))
}

// The digest with the last of these records.
fn mix_last(digest: u64, records: &[Record]) -> u64 {
    let Some(record) = records.last() else {
        return digest;
    };
    let name = record
        .name
        .iter()
        .fold(digest, |all, byte| mix(all, u64::from(*byte)));
    mix_words(mix_words(name, &record.feedforward), &record.feedback)
}

// Reads the file so many times, and answers the digest of the last records and of the refusals.
pub fn read_all(heap: Global, file: &[u8], count: u64) -> u64 {
    let mut digest = 0u64;
    for _ in 0..count {
        digest = match read(heap, file) {
            Ok(records) => mix_last(digest, &records),
            Err(refusal) => mix(digest, u64::from(refusal.number().unwrap_or(0))),
        };
    }
    digest
}
