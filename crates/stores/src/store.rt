// The trait of block stores. A store is known by its meaning alone (specs/Meaning): a capacity and a
// block limit that never change, a health, and for each number nothing or a block of frames. Every
// promise speaks of the meaning before and after a call, so what stands above is proved once for
// every store.
ghost use Rattle.std.specs.Prelude.{◌≡◌, ◌<◌, length, Some, MatchResult};
ghost use Rattle.stores.specs.declared.fault.StoreError.TheVariants.{NoBlock};
ghost use Rattle.stores.specs.Faults.{fault};
ghost use Rattle.stores.specs.Meaning.{Meaning, WithinLimit, capacity, block, vacant, lowest, well};
ghost use Rattle.stores.specs.Promise.{Checks, Puts, Reads, Releases, placed, refusal_of_put, refusal_of_read};

use crate::fault::{StoreError, StoreFault};
use frames::Frame;

pub trait Store {
    // What the blocks are made of.
    type Kind: Frame;

    ghost meaning: { Self → Meaning Self.Kind };

    // No block is longer than the limit.
    ghost fitting: { (s : Self) → WithinLimit (meaning s) };

    // How many numbers there are: they go from 0 to one less.
    fn capacity(&self) -> usize
        ensures { result ≡ capacity (meaning self.now) };

    // The most frames of a block.
    fn limit(&self) -> usize
        ensures { result ≡ (meaning self.now).limit };

    // Whether the store failed and was not rearmed since.
    fn is_ailing(&self) -> bool
        ensures { result ≡ (meaning self.now).ailing };

    // How many frames the block of a number has, 0 where there is none: the meaning has an empty list
    // there, and this is its length.
    fn block_len(&self, number: usize) -> usize
        ensures { result ≡ length (block (meaning self.now) number) };

    // How many numbers are free.
    fn free(&self) -> usize
        ensures { result ≡ vacant (meaning self.now).blocks }
    {
        (0..self.capacity())
            .filter(|number| self.block_len(*number) == 0)
            .count()
    }

    // The lowest free number, if one is free.
    fn lowest_free(&self) -> Option<usize>
        ensures { result ≡ lowest (meaning self.now) }
    {
        (0..self.capacity()).find(|number| self.block_len(*number) == 0)
    }

    // The lowest free number for a put of `count` frames, or why the put is refused.
    fn place(&self, count: usize) -> Result<usize, StoreError>
        ensures { result ≡ placed (meaning self.now) count }
    {
        if self.is_ailing() {
            return Err(StoreError::Ailing);
        }
        if count == 0 || count > self.limit() {
            return Err(StoreError::BadLength);
        }
        self.lowest_free().ok_or(StoreError::Full)
    }

    // Refuses a put of `count` frames, if it is refused before it is tried.
    fn check_put(&self, count: usize) -> Result<(), StoreError>
        ensures { Checks (refusal_of_put (meaning self.now) count) result }
    {
        self.place(count)?;
        Ok(())
    }

    // Refuses a read of `count` frames, if it is refused before it is tried.
    fn check_read(&self, number: usize, offset: usize, count: usize) -> Result<(), StoreError>
        ensures { Checks (refusal_of_read (meaning self.now) number offset count) result }
    {
        if self.is_ailing() {
            return Err(StoreError::Ailing);
        }
        let len = self.block_len(number);
        if len == 0 {
            return Err(StoreError::NoBlock);
        }
        if offset > len || count > len - offset {
            return Err(StoreError::BeyondBlock);
        }
        if count == 0 {
            return Err(StoreError::BadLength);
        }
        Ok(())
    }

    // Refuses a release of a number that has no block, by the fault that tells so.
    fn check_release(&self, number: usize) -> Result<(), StoreFault>
        ensures { MatchResult result (λ _. 0 < length (block (meaning self.now) number)) (λ f. (length (block (meaning self.now) number) ≡ 0) × (f ≡ fault NoBlock (Some number))) }
    {
        if self.block_len(number) == 0 {
            return Err(StoreError::NoBlock.at(number));
        }
        Ok(())
    }

    // Puts the frames as a block at a free number of the store's choice, and tells the number.
    fn put(&mut self, frames: &[Self::Kind]) -> Result<usize, StoreFault>
        ensures { Puts (meaning self.old) frames.now result (meaning self.new) };

    // Fills the buffer with the frames of a block from an offset on.
    fn read(
        &mut self,
        number: usize,
        offset: usize,
        buffer: &mut [Self::Kind],
    ) -> Result<(), StoreFault>
        ensures { Reads (meaning self.old) number offset buffer.old result buffer.new (meaning self.new) };

    // Frees a number that has a block, also in an ailing store.
    fn release(&mut self, number: usize) -> Result<(), StoreFault>
        ensures { Releases (meaning self.old) number result (meaning self.new) };

    // Makes the store well.
    fn rearm(&mut self)
        ensures { meaning self.new ≡ well (meaning self.old) };
}
