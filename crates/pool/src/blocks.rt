// New blocks: the frames of joined stretches, put part by part, or nothing put at all.
ghost use Rattle.std.specs.Prelude.{◌≡◌, ◌<◌, [], length, vec_capacity};
ghost use Rattle.std.specs.List.{AllByRecursion};
ghost use Rattle.stores.specs.Meaning.{capacity};
ghost use Rattle.reading.specs.Rows.{RowsStay};
ghost use Rattle.reading.specs.Stretches.{sequence, AllSound};
ghost use Rattle.pool.specs.Accounts.{SameCounts};
ghost use Rattle.pool.specs.Kept.{KeepsRight};
ghost use Rattle.pool.specs.Blocks.{emptied, CutFits, CutsFit, Takes, PutsOne, Keeps, PutsAll};

use crate::cut::Cut;
use crate::fault::PutFault;
use crate::pool::Pool;
use frames::Frame;
use reading::{Stretch, gather};
use stores::{Store, StoreFault};

impl<S: Store> Pool<S> {
    // Puts a block for each cut of the joined stretches, from left to right, and leaves their numbers
    // in `numbers`; where the memory for these is wanting, or the store refuses or fails, none is put.
    // The frames pass through the work buffer, so that no memory is asked for them: what it holds
    // afterwards is not said. Where `numbers` has room, none is asked for at all.
    pub fn put_blocks(
        &mut self,
        stretches: &[Stretch<'_, S::Kind>],
        cuts: &[Cut],
        work: &mut [S::Kind],
        numbers: &mut Vec<usize>,
    ) -> Result<(), PutFault>
        ensures below { AllByRecursion (λ n. n < capacity (S.Store.meaning self.old.store)) numbers.new.items }
        ensures store { Keeps (vec_capacity numbers.old) (S.Store.meaning self.old.store) cuts.now result numbers.new.items (S.Store.meaning self.new.store) }
        ensures told { AllSound (S.Store.meaning self.old.store) stretches.now → CutsFit (length work.old) (length (sequence (S.Store.meaning self.old.store) stretches.now)) cuts.now → PutsAll (S.Store.meaning self.old.store) stretches.now cuts.now result numbers.new.items (S.Store.meaning self.new.store) }
        ensures rows { RowsStay (S.Store.meaning self.old.store) (S.Store.meaning self.new.store) }
        ensures work { length work.new ≡ length work.old }
        ensures counts { SameCounts self.old self.new }
        ensures keeps { KeepsRight S.Kind.Frame S.Store.meaning self.old self.new }
    {
        numbers.clear();
        numbers.reserve(cuts.len())?;
        for cut in cuts {
            // A match: what was put is taken back before the fault is told, which `?` alone does not do.
            match self.put_part(stretches, *cut, work) {
                Ok(number) => numbers.push_reserved(number),
                Err(fault) => {
                    self.take_back(numbers);
                    return Err(PutFault::Store(fault));
                }
            }
        }
        Ok(())
    }

    // Puts one block, whose frames lie at the cut in the joined stretches.
    fn put_part(
        &mut self,
        stretches: &[Stretch<'_, S::Kind>],
        cut: Cut,
        work: &mut [S::Kind],
    ) -> Result<usize, StoreFault>
        ensures store { Takes (S.Store.meaning self.old.store) result (S.Store.meaning self.new.store) }
        ensures told { AllSound (S.Store.meaning self.old.store) stretches.now → CutFits (length work.old) (length (sequence (S.Store.meaning self.old.store) stretches.now)) cut → PutsOne (S.Store.meaning self.old.store) stretches.now cut result (S.Store.meaning self.new.store) }
        ensures counts { SameCounts self.old self.new }
        ensures keeps { KeepsRight S.Kind.Frame S.Store.meaning self.old self.new }
    {
        let count = cut.len.min(work.len());
        let part = &mut work[..count];
        gather(&mut self.store, stretches, cut.at, part)?;
        self.put(part)
    }

    // Releases every number that was put, the newest first.
    fn take_back(&mut self, numbers: &mut Vec<usize>)
        ensures store { (S.Store.meaning self.new.store) ≡ emptied (S.Store.meaning self.old.store) numbers.old.items }
        ensures numbers { numbers.new.items ≡ [] }
        ensures counts { SameCounts self.old self.new }
        ensures keeps { KeepsRight S.Kind.Frame S.Store.meaning self.old self.new }
    {
        while let Some(number) = numbers.pop() {
            let _ = self.store.release(number);
        }
    }
}
