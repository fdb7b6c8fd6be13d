// The frames of joined stretches, gathered into a buffer.
ghost use Rattle.std.specs.Prelude.{◌+◌, ◌≤◌, length};
ghost use Rattle.reading.specs.Faults.{Leaves};
ghost use Rattle.reading.specs.Stretches.{extent, stretch, sequence, origin, Sound, AllSound, Misses, Gathers};
ghost use Rattle.reading.specs.StretchesLemmas.{stretch_length};

use crate::part::Part;
use crate::row::read_row;
use crate::stretch::Stretch;
use crate::walking::walk;
use stores::{Store, StoreFault};

// A stretch: its frames are read of its row, or are at hand.
impl<'a, S: Store> Part<S> for Stretch<'a, S::Kind> {
    ghost size = { extent };

    ghost frames = { stretch };

    ghost tied = { Sound };

    ghost serves = { λ m. Unit {0} };

    ghost fails = { λ m s skip old f new m'. Misses m (origin s) skip (length old) f m' };

    fn len(&self) -> usize {
        match self {
            Stretch::Row { entries: _, span } => span.len(),
            Stretch::Given(frames) => frames.len(),
        }
    }

    fn fill(&self, store: &mut S, skip: usize, buffer: &mut [S::Kind]) -> Result<(), StoreFault> {
        match self {
            Stretch::Row { entries, span } => {
                read_row(store, entries, span.start.saturating_add(skip), buffer)?
            }
            Stretch::Given(frames) => buffer.copy_from_slice(&frames[skip..skip + buffer.len()]),
        }
        Ok(())
    }

    ghost sized = { stretch_length };
}

// Fills the buffer with the frames of the joined stretches from `at` on. Nothing is promised of
// what the buffer holds where a read fails.
pub fn gather<S: Store>(
    store: &mut S,
    stretches: &[Stretch<'_, S::Kind>],
    at: usize,
    buffer: &mut [S::Kind],
) -> Result<(), StoreFault>
    ensures store { Leaves (λ f. f.error) result (S.Store.meaning store.old) (S.Store.meaning store.new) }
    ensures told { AllSound (S.Store.meaning store.old) stretches.now → at + length buffer.old ≤ length (sequence (S.Store.meaning store.old) stretches.now) → Gathers (S.Store.meaning store.old) stretches.now at buffer.old result buffer.new (S.Store.meaning store.new) }
{
    Ok(walk(store, stretches, at, buffer)?)
}
