//! Whether a whole file is sound: its directory, then record by record.
ghost use Rattle.std.specs.Prelude.{◌≡◌, ◌<◌, ◌≤◌, [], map, take, Some, None, MatchResult, OnOk, slice_index_or};
ghost use Rattle.materials.specs.Refusals.{Checks, or_else};
ghost use Rattle.materials.specs.Records.{has_name, name_of, part_fault};
ghost use Rattle.materials.specs.Files.{count_of, parts, used_fault, records_fault, refusal};
ghost use Rattle.materials.specs.Numbers.{Tells, file_table};
ghost use Rattle.materials.specs.Laws.{Encoding, AcceptsExactly, OneRecordEach};

use crate::directory::Directory;
use crate::part::{examine, is_named};
use crate::refusal::{RecordFault, Refusal};

// Whether one of the first `i` records has the name.
fn name_used(directory: &Directory<'_>, i: usize, name: &[u8]) -> bool
    requires { i ≤ count_of directory.now.file.now }
    ensures { result ≡ has_name (map name_of (take i (parts directory.now.file.now))) name.now }
{
    (0..i).any(|j| is_named(directory.part(j), name))
}

// Whether nothing is wrong with record `i`, and no record before it has its name.
fn check_part(directory: &Directory<'_>, i: usize) -> Result<(), RecordFault>
    requires { i < count_of directory.now.file.now }
    ensures { let ps = parts directory.now.file.now in let p = slice_index_or ps i [] in Checks (or_else (part_fault p) (used_fault (map name_of (take i ps)) (name_of p))) result }
{
    let fields = examine(directory.part(i))?;
    if name_used(directory, i, fields.name) {
        return Err(RecordFault::NameUsedEarlier);
    }
    Ok(())
}

// Whether nothing is wrong with a record, in file order.
fn check_records(directory: &Directory<'_>) -> Result<(), Refusal>
    ensures { Checks (records_fault [] 1 (parts directory.now.file.now)) result }
{
    // By its number: a refusal tells it, and what lies before it is named by it.
    for i in 0..directory.count() {
        check_part(directory, i).map_err(|fault| Refusal::InRecord(i + 1, fault))?;
    }
    Ok(())
}

// The directory of a file that is not refused.
pub(crate) fn checked(file: &[u8]) -> Result<Directory<'_>, Refusal>
    ensures answer { MatchResult result (λ d. (d.file.now ≡ file.now) × (refusal file.now ≡ None)) (λ e. refusal file.now ≡ Some e) }
    ensures numbers { Tells (file_table file.now) result }
    ensures exactly { MatchResult result (λ _. Encoding file.now) (λ _. Encoding file.now → ⊥) }
    ensures names { OnOk result (OneRecordEach file.now) }
{
    let directory = Directory::of(file)?;
    check_records(&directory)?;
    Ok(directory)
}

/// The number of records of a file, or why it is refused. It needs no memory.
///
/// A file is accepted exactly if it is the encoding of a good list, and then no two of its records have the same name.
pub fn check(file: &[u8]) -> Result<usize, Refusal>
    ensures answer { MatchResult result (λ n. (refusal file.now ≡ None) × (n ≡ count_of file.now)) (λ e. refusal file.now ≡ Some e) }
    ensures numbers { Tells (file_table file.now) result }
    ensures exactly { AcceptsExactly file.now result }
    ensures names { OnOk result (OneRecordEach file.now) }
{
    Ok(checked(file)?.count())
}
