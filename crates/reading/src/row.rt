// Rows over a store: their frames from a position on.
ghost use Rattle.std.specs.Prelude.{◌≡◌, ◌+◌, ◌^◌, ◌<◌, ◌≤◌, false, length};
ghost use Rattle.std.proofs.Common.{sym};
ghost use Rattle.stores.specs.Meaning.{block};
ghost use Rattle.reading.specs.Faults.{Leaves, Fails};
ghost use Rattle.reading.specs.Rows.{frames, Ties, Tied, RowReads};

use crate::fault::ReadFault;
use crate::part::Part;
use crate::walking::walk;
use rows::Entry;
use stores::{Store, StoreFault};

// An entry of a row, whose frames are its block's.
impl<S: Store> Part<S> for Entry {
    ghost size = { λ e. e.len };

    ghost frames = { λ m e. block m e.block };

    ghost tied = { Ties };

    ghost serves = { λ m. m.ailing ≡ false };

    ghost fails = { λ m e skip old f new m'. Fails m e.block f m' × (new ≡ old) };

    fn len(&self) -> usize {
        self.len
    }

    fn fill(&self, store: &mut S, skip: usize, buffer: &mut [S::Kind]) -> Result<(), StoreFault> {
        store.read(self.block, skip, buffer)
    }

    ghost sized = { λ m e ties. sym ties.1 };
}

// Fills the buffer with the row's frames from `start` on, by one read for each block that has some
// of them. Where a read fails, the frames before that block's part are written and no others.
pub fn read_row<S: Store>(
    store: &mut S,
    entries: &[Entry],
    start: usize,
    buffer: &mut [S::Kind],
) -> Result<(), ReadFault>
    ensures store { Leaves (λ f. f.fault.error) result (S.Store.meaning store.old) (S.Store.meaning store.new) }
    ensures told { Tied (S.Store.meaning store.old) entries.now → start + length buffer.old ≤ length (frames (S.Store.meaning store.old) entries.now) → start + length buffer.old < 2 ^ 64 → RowReads (S.Store.meaning store.old) entries.now start buffer.old result buffer.new (S.Store.meaning store.new) }
{
    walk(store, entries, start, buffer)
}
