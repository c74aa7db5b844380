ghost use Rattle.std.specs.Prelude.{◌≡◌, ◌≤◌, List, length};
ghost use Rattle.wiring.specs.Lists.{Each₂};
ghost use Rattle.sheet.specs.Searching.{over};

use kinds::values::Bound;

// A part of each entry of a box, into the first places of a row.
// By index: tried `row.iter_mut().zip(entries)`; no invariant can name the lent row, and after the loop a proof knows its length alone.
pub(crate) fn write<T: Copy, F: Fn(Bound) -> T>(entries: &[Bound], part: F, row: &mut [T])
    requires room { length entries.now ≤ length row.old }
    requires callable { F.IsAlwaysCallable part }
    ensures { (parts : List T) × Each₂ (F.post part) entries.now parts × (row.new ≡ over parts row.old) }
{
    for (i, entry) in entries.iter().enumerate() {
        row[i] = part(*entry);
    }
}
