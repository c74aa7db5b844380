// A number made of all that was computed, so that two programs can be held to one another.
use kinds::values::{Enclosed, Word};

// The digest with one more number.
pub fn mix(digest: u64, number: u64) -> u64 {
    digest.wrapping_mul(31).wrapping_add(number)
}

pub trait Digest {
    // The digest with this value.
    fn mix_into(&self, digest: u64) -> u64;
}

impl Digest for Word {
    fn mix_into(&self, digest: u64) -> u64 {
        mix(digest, u64::from(self.word.unsigned_abs()))
    }
}

impl Digest for Enclosed {
    fn mix_into(&self, digest: u64) -> u64 {
        let word = mix(digest, u64::from(self.word.unsigned_abs()));
        mix(mix(word, self.low.unsigned_abs()), self.high.unsigned_abs())
    }
}
