// The tripping store as a store. Beyond what every store promises, its calls say what they do to the
// count and to the store below.
ghost use Rattle.std.specs.Prelude.{◌≡◌, ◌+◌, false, ◌||◌, length, Some, None, Err};
ghost use Rattle.stores.specs.Faults.{fault};
ghost use Rattle.stores.specs.Meaning.{well};
ghost use Rattle.stores.specs.Promise.{Puts, Reads, Releases, refusal_of_put, refusal_of_read};
ghost use Rattle.stores.specs.Trip.{Counts, one_more, seen, trips_at};
ghost use Rattle.stores.specs.declared.fault.StoreError.TheVariants.{Failed};

use crate::fault::{StoreError, StoreFault};
use crate::store::Store;
use crate::tripping::Tripping;

// What stays as it was is said field by field: a name for one field's staying would be no shorter.
impl<S: Store> Tripping<S> {
    // Counts one put or read, and says whether it is the one that fails.
    fn trips(&mut self) -> bool
        ensures value { result ≡ trips_at self.old.trip_at (self.old.counted + 1) }
        ensures counted { self.new.counted ≡ one_more self.old.counted }
        ensures tripped { self.new.tripped ≡ (result || self.old.tripped) }
        ensures below { self.new.below ≡ self.old.below }
        ensures trip { self.new.trip_at ≡ self.old.trip_at }
    {
        let trips = self
            .trip_at
            .is_some_and(|at| at.checked_sub(1) == Some(self.counted));
        self.counted = self.counted.saturating_add(1);
        self.tripped |= trips;
        trips
    }
}

impl<S: Store> Store for Tripping<S> {
    type Kind = S::Kind;

    ghost meaning = { seen S.Store.meaning };

    ghost fitting = { λ t. S.Store.fitting t.below };

    fn capacity(&self) -> usize {
        self.below.capacity()
    }

    fn limit(&self) -> usize {
        self.below.limit()
    }

    fn is_ailing(&self) -> bool {
        self.tripped || self.below.is_ailing()
    }

    fn block_len(&self, number: usize) -> usize {
        self.below.block_len(number)
    }

    fn put(&mut self, frames: &[S::Kind]) -> Result<usize, StoreFault>
        ensures promised { Puts (seen S.Store.meaning self.old) frames.now result (seen S.Store.meaning self.new) }
        ensures counted { Counts (refusal_of_put (seen S.Store.meaning self.old) (length frames.now)) self.old self.new (result ≡ Err (fault Failed None)) (Puts (S.Store.meaning self.old.below) frames.now result (S.Store.meaning self.new.below)) }
    {
        self.check_put(frames.len())?;
        if self.trips() {
            return Err(StoreError::Failed.into());
        }
        self.below.put(frames)
    }

    fn read(
        &mut self,
        number: usize,
        offset: usize,
        buffer: &mut [S::Kind],
    ) -> Result<(), StoreFault>
        ensures promised { Reads (seen S.Store.meaning self.old) number offset buffer.old result buffer.new (seen S.Store.meaning self.new) }
        ensures counted { Counts (refusal_of_read (seen S.Store.meaning self.old) number offset (length buffer.old)) self.old self.new (result ≡ Err (fault Failed (Some number))) (Reads (S.Store.meaning self.old.below) number offset buffer.old result buffer.new (S.Store.meaning self.new.below)) }
    {
        self.check_read(number, offset, buffer.len())
            .map_err(|error| error.at(number))?;
        if self.trips() {
            return Err(StoreError::Failed.at(number));
        }
        self.below.read(number, offset, buffer)
    }

    fn release(&mut self, number: usize) -> Result<(), StoreFault>
        ensures promised { Releases (seen S.Store.meaning self.old) number result (seen S.Store.meaning self.new) }
        ensures below { Releases (S.Store.meaning self.old.below) number result (S.Store.meaning self.new.below) }
        ensures counted { self.new.counted ≡ self.old.counted }
        ensures trip { self.new.trip_at ≡ self.old.trip_at }
        ensures tripped { self.new.tripped ≡ self.old.tripped }
    {
        self.below.release(number)
    }

    fn rearm(&mut self)
        ensures promised { seen S.Store.meaning self.new ≡ well (seen S.Store.meaning self.old) }
        ensures below { S.Store.meaning self.new.below ≡ well (S.Store.meaning self.old.below) }
        ensures counted { self.new.counted ≡ self.old.counted }
        ensures trip { self.new.trip_at ≡ self.old.trip_at }
        ensures tripped { self.new.tripped ≡ false }
    {
        self.tripped = false;
        self.below.rearm();
    }
}
