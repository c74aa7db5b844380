//! The front of a file: the count of records, and where each lies.
ghost use Rattle.std.specs.Prelude.{◌≡◌, ◌<◌, [], map, length, drop, None, MatchResult, slice_index_or};
ghost use Rattle.materials.specs.Layout.{two_at, four_at};
ghost use Rattle.materials.specs.Refusals.{Checks};
ghost use Rattle.materials.specs.Files.{count_of, pair_in, misplaced, file_fault};
ghost use Rattle.materials.specs.Files.{directory as pairs_in, parts as parts_in};

use crate::refusal::Refusal;

// Where a record lies in its file.
#[derive(Clone, Copy)]
pub(crate) struct Place {
    pub(crate) offset: u32,
    pub(crate) length: u16,
}

// A file whose pairs are in place, and the pairs.
#[derive(Clone, Copy)]
pub(crate) struct Directory<'a> {
    pub(crate) file: &'a [u8],
    pub(crate) pairs: &'a [[u8; 6]],
    ghost sound: { file_fault file.now ≡ None },
    ghost listed: { map pair_in pairs.now ≡ pairs_in file.now },
}

// The place that a pair tells.
fn place_of(pair: &[u8; 6]) -> Place
    ensures { (result.offset ≡ four_at pair.now) × (result.length ≡ two_at (drop 4 pair.now)) }
{
    let [a, b, c, d, e, f] = *pair;
    Place {
        offset: u32::from_be_bytes([a, b, c, d]),
        length: u16::from_be_bytes([e, f]),
    }
}

// Whether each record begins where the one before ends, the first at `start`, and the last ends where the file ends.
fn check_places(pairs: &[[u8; 6]], start: usize, file_end: usize) -> Result<(), Refusal>
    ensures { Checks (misplaced 1 start (map pair_in pairs.now) file_end) result }
{
    let mut end = start;
    for (i, pair) in pairs.iter().enumerate() {
        let place = place_of(pair);
        if place.offset as usize != end {
            return Err(Refusal::PairOutOfPlace(i + 1));
        }
        end += place.length as usize;
    }
    if end != file_end {
        return Err(Refusal::FileEndOutOfPlace);
    }
    Ok(())
}

impl<'a> Directory<'a> {
    // The directory of a file, if its pairs are in place.
    pub(crate) fn of(file: &'a [u8]) -> Result<Directory<'a>, Refusal>
        ensures { MatchResult result (λ d. d.file.now ≡ file.now) (λ e. file_fault file.now ≡ Some e) }
    {
        if file.len() < 2 || file.len() > 65000 {
            return Err(Refusal::FileSize);
        }
        let count = u16::from_be_bytes([file[0], file[1]]) as usize;
        if count > 512 {
            return Err(Refusal::RecordCount);
        }
        let start = 2 + 6 * count;
        if start > file.len() {
            return Err(Refusal::PairsPastEnd);
        }
        let (pairs, _) = file[2..start].as_chunks();
        check_places(pairs, start, file.len())?;
        Ok(Directory { file, pairs })
    }

    // How many records the file has.
    pub(crate) fn count(&self) -> usize
        ensures { result ≡ count_of self.now.file.now }
    {
        self.pairs.len()
    }

    // The place of record `i`, from 0.
    pub(crate) fn place(&self, i: usize) -> Place
        requires { i < count_of self.now.file.now }
        ensures { (result.offset, result.length) ≡ slice_index_or (pairs_in self.now.file.now) i (0, 0) }
    {
        place_of(&self.pairs[i])
    }

    // The part of the file that is its record `i`, from 0.
    pub(crate) fn part(&self, i: usize) -> &'a [u8]
        requires { i < count_of self.now.file.now }
        ensures { result.now ≡ slice_index_or (parts_in self.now.file.now) i [] }
    {
        let place = self.place(i);
        let start = place.offset as usize;
        &self.file[start..start + place.length as usize]
    }
}
