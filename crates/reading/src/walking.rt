// A walk over the parts of a sequence, which fills a buffer.
ghost use Rattle.std.specs.Prelude.{◌+◌, ◌≤◌, length};
ghost use Rattle.reading.specs.Faults.{Leaves};
ghost use Rattle.reading.specs.Walks.{AllTied, joined, Walks};

use crate::fault::ReadFault;
use crate::part::Part;
use stores::Store;

// Fills the buffer with the frames of the joined parts from `start` on, by one fill for each part
// that has some of them. Where a fill fails, the frames before its part are written.
pub(crate) fn walk<S: Store, P: Part<S>>(
    store: &mut S,
    parts: &[P],
    start: usize,
    buffer: &mut [S::Kind],
) -> Result<(), ReadFault>
    ensures store { Leaves (λ f. f.fault.error) result (S.Store.meaning store.old) (S.Store.meaning store.new) }
    ensures told { AllTied P.Part (S.Store.meaning store.old) parts.now → start + length buffer.old ≤ length (joined P.Part (S.Store.meaning store.old) parts.now) → Walks P.Part (S.Store.meaning store.old) parts.now start buffer.old result buffer.new (S.Store.meaning store.new) }
{
    let mut skip = start;
    // The frames that are filled are counted: where a loop splits the buffer again and again, as was
    // tried, no proof says what the whole of it ends as.
    let mut done: usize = 0;
    for part in parts {
        let left = buffer.len() - done;
        if left == 0 {
            break;
        }
        let len = part.len();
        if skip >= len {
            skip -= len;
        } else {
            let count = left.min(len - skip);
            part.fill(store, skip, &mut buffer[done..done + count])
                .map_err(|fault| ReadFault {
                    fault,
                    at: start.saturating_add(done),
                })?;
            skip = 0;
            done += count;
        }
    }
    Ok(())
}
