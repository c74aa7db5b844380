//! Whether a list of records in memory can be written, and how long its file is.
ghost use Rattle.std.specs.Prelude.{◌≡◌, ◌≤◌, map, length, Some, None, MatchResult};
ghost use Rattle.materials.specs.Refusals.{Checks, or_else};
ghost use Rattle.materials.specs.Records.{has_name};
ghost use Rattle.materials.specs.Files.{used_fault};
ghost use Rattle.materials.specs.Lists.{called, bytes_of, record_fault, list_fault, list_length, list_refusal};

use crate::coefficients::words_hold;
use crate::fields::{check_counts, check_name, choices_of, format_of};
use crate::record::Record;
use crate::refusal::{RecordFault, Refusal};

// The first thing that is wrong with a record that is to be written.
fn check_record(item: &Record) -> Result<(), RecordFault>
    ensures { Checks (record_fault item.now) result }
{
    check_name(item.name.as_slice())?;
    choices_of(item.form, item.rounding, item.overflow)?;
    let format = format_of(item.whole_bits, item.fraction_bits)?;
    check_counts(item.feedforward.len(), item.feedback.len())?;
    if !words_hold(item.feedforward.as_slice(), format)
        || !words_hold(item.feedback.as_slice(), format)
    {
        return Err(RecordFault::Coefficient);
    }
    Ok(())
}

// Whether one of the records has the name.
fn name_taken(records: &[Record], name: &[u8]) -> bool
    ensures { result ≡ has_name (map called records.now) name.now }
{
    records.iter().any(|item| item.is_called(name))
}

// A record of which nothing is wrong.
#[derive(Clone, Copy)]
pub(crate) struct Good<'a> {
    pub(crate) item: &'a Record,
    ghost good: { record_fault item.now ≡ None },
}

impl<'a> Good<'a> {
    // The record, if nothing is wrong with it, and none of the earlier records has its name.
    fn of(item: &'a Record, earlier: &[Record]) -> Result<Good<'a>, RecordFault>
        ensures { let o = or_else (record_fault item.now) (used_fault (map called earlier.now) (called item.now)) in MatchResult result (λ g. (o ≡ None) × (g.item.now ≡ item.now)) (λ e. o ≡ Some e) }
    {
        check_record(item)?;
        if name_taken(earlier, item.name.as_slice()) {
            return Err(RecordFault::NameUsedEarlier);
        }
        Ok(Good { item })
    }

    // The length of its part of a file.
    pub(crate) fn length(&self) -> usize
        ensures { (result ≡ length (bytes_of self.now.item.now)) × (result ≤ 116) }
    {
        let item = self.item;
        item.name.len() + 8 + 4 * (item.feedforward.len() + item.feedback.len())
    }
}

// A list of records of which nothing is wrong, and the length of its file.
#[derive(Clone, Copy)]
pub(crate) struct GoodList<'a> {
    pub(crate) records: &'a [Record],
    pub(crate) size: usize,
    ghost good: { list_fault records.now ≡ None },
    ghost few: { length records.now ≤ 512 },
    ghost sized: { size ≡ list_length records.now },
}

// The list, or why it is not written.
pub(crate) fn check_list(records: &[Record]) -> Result<GoodList<'_>, Refusal>
    ensures { MatchResult result (λ l. l.records.now ≡ records.now) (λ e. list_refusal records.now ≡ Some e) }
{
    if records.len() > 512 {
        return Err(Refusal::RecordCount);
    }
    let mut size = 2 + 6 * records.len();
    for (i, item) in records.iter().enumerate() {
        let good = Good::of(item, &records[..i]).map_err(|fault| Refusal::InRecord(i + 1, fault))?;
        size += good.length();
    }
    Ok(GoodList { records, size })
}
