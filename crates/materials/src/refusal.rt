//! Why something is refused, and by which number it is told.
ghost use Rattle.std.specs.Prelude.{◌≡◌};
ghost use Rattle.materials.specs.declared.refusal.Refusal.TheVariants.{OutOfMemory};
ghost use Rattle.materials.specs.Refusals.{fault_number, record_number};
ghost use Rattle.materials.specs.Refusals.{number as refusal_number};
ghost use Rattle.materials.specs.Records.{of_format};

use arithmetic::format::FormatFault;
use std::alloc::{AllocError, AllocFailed};

/// What is wrong with a record, one case for each condition.
#[derive(Clone, Copy, Debug, PartialEq, Eq)]
pub enum RecordFault {
    /// Its part of the file has no byte.
    Empty,
    /// Its name has no byte, or more than 40.
    NameSize,
    /// Its part of the file is too short for its name and the seven bytes after it.
    TooShort,
    /// A byte of its name is below 32 or above 126.
    NameByte,
    /// Its form is none of 1, 2, T.
    FormLetter,
    /// Its rounding rule is none of F, N, Z.
    RoundingLetter,
    /// Its overflow rule is none of W, S, X.
    OverflowLetter,
    /// No whole bits.
    WholeBits,
    /// No fraction bits.
    FractionBits,
    /// Fewer than 8 bits in all, or more than 24.
    Width,
    /// No feedforward coefficient, or more than 9.
    FeedforwardCount,
    /// More than 8 feedback coefficients.
    FeedbackCount,
    /// Its part of the file is not as long as its fields call for.
    Length,
    /// A coefficient is no word of the format.
    Coefficient,
    /// An earlier record has its name.
    NameUsedEarlier,
}

impl RecordFault {
    /// The number that the fault is told by, 4 to 10.
    pub fn number(self) -> u8
        ensures { result ≡ fault_number self }
    {
        match self {
            RecordFault::Empty
            | RecordFault::NameSize
            | RecordFault::TooShort
            | RecordFault::NameByte => 4,
            RecordFault::FormLetter | RecordFault::RoundingLetter | RecordFault::OverflowLetter =>
                5,
            RecordFault::WholeBits | RecordFault::FractionBits | RecordFault::Width => 6,
            RecordFault::FeedforwardCount | RecordFault::FeedbackCount => 7,
            RecordFault::Length => 8,
            RecordFault::Coefficient => 9,
            RecordFault::NameUsedEarlier => 10,
        }
    }
}

/// A fault of a format is a fault of the record that has it.
impl From<FormatFault> for RecordFault {
    ghost from_gives = { λ e r. r ≡ of_format e };

    fn from(fault: FormatFault) -> RecordFault {
        match fault {
            FormatFault::Whole => RecordFault::WholeBits,
            FormatFault::Fraction => RecordFault::FractionBits,
            FormatFault::Width => RecordFault::Width,
        }
    }
}

/// Why a file, a look-up or a list of records is refused, one case for each condition.
#[derive(Clone, Copy, Debug, PartialEq, Eq)]
pub enum Refusal {
    /// The file has fewer than 2 bytes, or more than 65,000.
    FileSize,
    /// More than 512 records.
    RecordCount,
    /// The file ends before its pairs do.
    PairsPastEnd,
    /// The pair of this number, from 1, does not begin where the one before ends.
    PairOutOfPlace(usize),
    /// The last record does not end where the file ends.
    FileEndOutOfPlace,
    /// The record of this number, from 1, has a fault.
    InRecord(usize, RecordFault),
    /// No record has the name that was looked up.
    NoSuchName,
    /// The destination is shorter than the file that was to be written.
    DestinationTooShort,
    /// Nothing is wrong, but there was no memory for the records.
    OutOfMemory,
}

impl Refusal {
    /// The number that the refusal is told by; want of memory has none.
    pub fn number(self) -> Option<u8>
        ensures { result ≡ refusal_number self }
    {
        match self {
            Refusal::FileSize => Some(1),
            Refusal::RecordCount | Refusal::PairsPastEnd => Some(2),
            Refusal::PairOutOfPlace(_) | Refusal::FileEndOutOfPlace => Some(3),
            Refusal::InRecord(_, fault) => Some(fault.number()),
            Refusal::NoSuchName => Some(11),
            Refusal::DestinationTooShort => Some(23),
            Refusal::OutOfMemory => None,
        }
    }

    /// The record that the refusal speaks of, from 1, where it speaks of one.
    pub fn record(self) -> Option<usize>
        ensures { result ≡ record_number self }
    {
        match self {
            Refusal::InRecord(record, _) => Some(record),
            _ => None,
        }
    }
}

/// Where memory is wanting in the making of a list.
impl From<AllocError> for Refusal {
    ghost from_gives = { λ _ r. r ≡ OutOfMemory };

    fn from(_e: AllocError) -> Refusal {
        Refusal::OutOfMemory
    }
}

/// Where memory is wanting for one more element.
impl<T: Drop> From<AllocFailed<T>> for Refusal {
    ghost from_gives = { λ _ r. r ≡ OutOfMemory };

    fn from(_e: AllocFailed<T>) -> Refusal {
        Refusal::OutOfMemory
    }
}
