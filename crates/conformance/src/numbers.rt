//! Numbers, alone and in lists.
ghost use Rattle.std.specs.Prelude.{◌<◌, ◌≤◌, length, IfSome, IfOk, Ok, ◌≢◌, slice_index};

use crate::fault::Fault;
use std::alloc::Global;
use std::str::FromStr;

/// The number that a text writes: digits, with a minus before them or not. A plus is not taken.
pub fn number<T: FromStr>(text: &str) -> Option<T>
where
    T::Err: Drop,
    ensures { IfSome result (λ n. (0 < length text.now → slice_index text.now 0 ≢ 43) × T.FromStr.from_str_gives text.now (Ok n)) }
{
    if text.as_bytes().first() == Some(&b'+') {
        return None;
    }
    text.parse().ok()
}

/// The number of a field.
pub fn read_number<T: FromStr>(text: &str) -> Result<T, Fault>
where
    T::Err: Drop,
{
    number(text).ok_or(Fault::Unread)
}

/// The number of a field, where it is not too large.
pub fn read_at_most(text: &str, most: usize) -> Result<usize, Fault>
    ensures { IfOk result (λ n. n ≤ most) }
{
    number(text).filter(|n| *n <= most).ok_or(Fault::Unread)
}

/// The items of a list, with a comma between two of them; none where it is a dash.
pub(crate) fn read_items<T: Drop, F: FnMut(&str) -> Result<T, Fault> + Drop>(
    heap: Global,
    text: &str,
    item: F,
) -> Result<Vec<T>, Fault>
    requires { (state : F) (part : _) → F.pre state part }
{
    if text == "-" {
        return Ok(Vec::new(heap));
    }
    text.split(',').map(item).try_collect(heap)
}

/// The numbers of a list, with a comma between two of them; none where it is a dash.
pub fn read_list<T: FromStr + Drop>(heap: Global, text: &str) -> Result<Vec<T>, Fault>
where
    T::Err: Drop,
{
    read_items(heap, text, |part| read_number(part))
}

// The most places that a row may have.
const MAX_PLACES: usize = 1000;

/// The length of a row.
pub fn read_length(text: &str) -> Result<usize, Fault>
    ensures { IfOk result (λ n. n ≤ 1000) }
{
    read_at_most(text, MAX_PLACES)
}
