// The memory store's calls.
ghost use Rattle.std.specs.Prelude.{◌≡◌, ◌+◌, ◌*◌, ◌<◌, ◌≤◌, true, length, is_ok, None, vec_len};
ghost use Rattle.stores.specs.Meaning.{well};
ghost use Rattle.stores.specs.Promise.{Puts, Reads, Releases, refusal_of_read};
ghost use Rattle.slot_stores.specs.Slots.{put_answer, count_of_slots, unused};
ghost use Rattle.slot_stores.specs.Memory.{memory, memory_fitting, PutFrames};

use crate::memory::MemoryStore;
use crate::slots::slot_count;
use frames::Frame;
use stores::{Store, StoreFault};

impl<K: Frame> MemoryStore<K> {
    // A store with all numbers free, in as many slots of `limit` frames as there are whole.
    pub fn new(frames: Vec<K>, limit: usize) -> MemoryStore<K>
        ensures meaning { memory result ≡ unused limit (count_of_slots limit limit (vec_len frames)) }
        ensures frames { result.frames ≡ frames }
    {
        let slots = slot_count(limit, limit, frames.len());
        MemoryStore {
            frames,
            limit,
            slots,
            lengths: [0; 1024],
        }
    }

    // Gives the frames back.
    pub fn into_frames(self) -> Vec<K>
        ensures { result ≡ self.frames }
    {
        let MemoryStore { frames, .. } = self;
        frames
    }

    // Where a slot begins. The image store's slots have another size: one function for both would be
    // told what either knows of itself.
    fn slot_start(&self, number: usize) -> usize
        requires { number < self.now.slots }
        ensures value { result ≡ number * self.now.limit }
        ensures within { result + self.now.limit ≤ vec_len self.now.frames }
    {
        number * self.limit
    }
}

impl<K: Frame> Store for MemoryStore<K> {
    type Kind = K;

    ghost meaning = { memory };

    ghost fitting = { memory_fitting };

    fn capacity(&self) -> usize {
        self.slots
    }

    fn limit(&self) -> usize {
        self.limit
    }

    fn is_ailing(&self) -> bool {
        false
    }

    fn block_len(&self, number: usize) -> usize {
        if number < self.slots {
            self.lengths[number] as usize
        } else {
            0
        }
    }

    fn put(&mut self, frames: &[K]) -> Result<usize, StoreFault>
        ensures promised { Puts (memory self.old) frames.now result (memory self.new) }
        ensures succeeds { result ≡ put_answer (memory self.old) (length frames.now) }
        ensures frames { PutFrames self.old frames.now result self.new }
    {
        let number = self.place(frames.len())?;
        let at = self.slot_start(number);
        self.frames[at..at + frames.len()].copy_from_slice(frames);
        self.lengths[number] = frames.len() as u32;
        Ok(number)
    }

    fn read(&mut self, number: usize, offset: usize, buffer: &mut [K]) -> Result<(), StoreFault>
        ensures promised { Reads (memory self.old) number offset buffer.old result buffer.new (memory self.new) }
        ensures succeeds { refusal_of_read (memory self.old) number offset (length buffer.old) ≡ None → is_ok result ≡ true }
        ensures frames { self.new ≡ self.old }
    {
        self.check_read(number, offset, buffer.len())
            .map_err(|error| error.at(number))?;
        let at = self.slot_start(number) + offset;
        buffer.copy_from_slice(&self.frames[at..at + buffer.len()]);
        Ok(())
    }

    fn release(&mut self, number: usize) -> Result<(), StoreFault>
        ensures promised { Releases (memory self.old) number result (memory self.new) }
        ensures frames { self.new.frames ≡ self.old.frames }
    {
        self.check_release(number)?;
        self.lengths[number] = 0;
        Ok(())
    }

    fn rearm(&mut self)
        ensures promised { memory self.new ≡ well (memory self.old) }
        ensures frames { self.new ≡ self.old }
    {}
}
