//! The file of a list of records, written into a lent destination.
ghost use Rattle.std.specs.Prelude.{◌≡◌, ◌+◌, ◌*◌, ◌≤◌, map, length};
ghost use Rattle.std.specs.List.{flat_map};
ghost use Rattle.materials.specs.Layout.{Puts, coded, pairs, meaning};
ghost use Rattle.materials.specs.Lists.{bytes_of};
ghost use Rattle.materials.specs.Numbers.{Tells, write_table};
ghost use Rattle.materials.specs.Laws.{Written, ReadsBack};

use crate::list::{Good, GoodList, check_list};
use crate::record::Record;
use crate::refusal::Refusal;

// Writes the bytes from `at` on, and says where they end.
// The destination and the place stay two parameters: by a rule of the project the destination is a lent slice, of which a refusal speaks.
fn put(destination: &mut [u8], at: usize, bytes: &[u8]) -> usize
    requires { at + length bytes.now ≤ length destination.old }
    ensures { Puts destination.old at bytes.now destination.new result }
{
    let end = at + bytes.len();
    destination[at..end].copy_from_slice(bytes);
    end
}

// Writes coefficients from `at` on, and says where they end.
fn put_words(destination: &mut [u8], at: usize, words: &[i32]) -> usize
    requires { at + 4 * length words.now ≤ length destination.old }
    ensures { Puts destination.old at (flat_map coded words.now) destination.new result }
{
    let mut end = at;
    for z in words {
        end = put(destination, end, &z.to_be_bytes());
    }
    end
}

// Writes a record from `at` on, and says where it ends.
fn put_record(destination: &mut [u8], at: usize, good: &Good<'_>) -> usize
    requires { at + length (bytes_of good.now.item.now) ≤ length destination.old }
    ensures { Puts destination.old at (bytes_of good.now.item.now) destination.new result }
{
    let item = good.item;
    let at = put(destination, at, &[item.name.len() as u8]);
    let at = put(destination, at, item.name.as_slice());
    let (k, l) = (item.whole_bits, item.fraction_bits);
    let (nb, na) = (item.feedforward.len() as u8, item.feedback.len() as u8);
    let fields = [
        item.form as u8,
        item.rounding as u8,
        item.overflow as u8,
        k,
        l,
        nb,
        na,
    ];
    let at = put(destination, at, &fields);
    let at = put_words(destination, at, item.feedforward.as_slice());
    put_words(destination, at, item.feedback.as_slice())
}

// Writes the pairs of the records, of which the first begins where the pairs end.
fn put_pairs(destination: &mut [u8], at: usize, list: &GoodList<'_>) -> usize
    requires { at + 6 * length list.now.records.now ≤ length destination.old }
    ensures { Puts destination.old at (pairs (2 + 6 * length list.now.records.now) (map bytes_of list.now.records.now)) destination.new result }
{
    let mut end = at;
    let mut begin = 2 + 6 * list.records.len();
    for item in list.records {
        let length = Good { item }.length();
        end = put(destination, end, &(begin as u32).to_be_bytes());
        end = put(destination, end, &(length as u16).to_be_bytes());
        begin += length;
    }
    end
}

// Writes the records one after another.
fn put_records(destination: &mut [u8], at: usize, list: &GoodList<'_>) -> usize
    requires { at + length (flat_map bytes_of list.now.records.now) ≤ length destination.old }
    ensures { Puts destination.old at (flat_map bytes_of list.now.records.now) destination.new result }
{
    let mut end = at;
    for item in list.records {
        end = put_record(destination, end, &Good { item });
    }
    end
}

/// Writes the file of these records at the front of the destination, and says how long it is, or why it is not written.
///
/// What was written reads back as the same list. Bytes past the file stay, and a refusal changes nothing.
pub fn write(records: &[Record], destination: &mut [u8]) -> Result<usize, Refusal>
    ensures written { Written (map meaning records.now) destination.old destination.new result }
    ensures numbers { Tells (write_table (map meaning records.now) (length destination.old)) result }
    ensures reads_back { ReadsBack (map meaning records.now) destination.new result }
{
    let list = check_list(records)?;
    if list.size > destination.len() {
        return Err(Refusal::DestinationTooShort);
    }
    let at = put(destination, 0, &(list.records.len() as u16).to_be_bytes());
    let at = put_pairs(destination, at, &list);
    Ok(put_records(destination, at, &list))
}
