//! The part of a file that is the record of a name.
ghost use Rattle.std.specs.Prelude.{◌≡◌, ◌+◌, ◌<◌, Some, None, MatchOption, MatchResult};
ghost use Rattle.materials.specs.Files.{count_of, stands_for, look_up_refusal};
ghost use Rattle.materials.specs.Numbers.{Tells, look_up_table};
ghost use Rattle.materials.specs.Laws.{FoundAt, name_at};

use crate::check::checked;
use crate::directory::Directory;
use crate::part::is_named;
use crate::refusal::Refusal;

/// A record's own part of a file, borrowed from the file.
#[derive(Clone, Copy)]
pub struct Found<'a> {
    /// The record's number, from 1.
    pub number: usize,
    /// Where it begins in the file.
    pub offset: usize,
    /// Its bytes.
    pub bytes: &'a [u8],
}

// Which record stands for the name, counted from 0.
fn find(directory: &Directory<'_>, name: &[u8]) -> Option<usize>
    ensures { let f = directory.now.file.now in MatchOption result (stands_for f name.now ≡ None) (λ i. (i < count_of f) × (stands_for f name.now ≡ Some (i + 1)) × (name_at f i ≡ name.now)) }
{
    (0..directory.count()).find(|i| is_named(directory.part(*i), name))
}

/// The part of the file that is the record of this name, or why the file is refused or has no such record.
pub fn look_up<'a>(file: &'a [u8], name: &[u8]) -> Result<Found<'a>, Refusal>
    ensures found { MatchResult result (λ p. FoundAt file.now name.now p.number p.offset p.bytes.now) (λ e. look_up_refusal file.now name.now ≡ Some e) }
    ensures numbers { Tells (look_up_table file.now name.now) result }
{
    let directory = checked(file)?;
    let i = find(&directory, name).ok_or(Refusal::NoSuchName)?;
    Ok(Found {
        number: i + 1,
        offset: directory.place(i).offset as usize,
        bytes: directory.part(i),
    })
}
