// How many frames the blocks of a list of entries have.
ghost use Rattle.std.specs.Prelude.{◌≡◌, ◌-◌, ◌^◌, min};
ghost use Rattle.rows.specs.Entries.{total};

use crate::entry::Entry;

// How many frames a row has, held at the largest `usize`.
pub fn row_len(entries: &[Entry]) -> usize
    ensures { result ≡ min (total entries.now) (2 ^ 64 - 1) }
{
    // A loop: a `fold` takes at least 1.3 times as long.
    let mut sum: usize = 0;
    for entry in entries {
        sum = sum.saturating_add(entry.len);
    }
    sum
}
