// The take as a row of counted blocks: put, held, read across a border and let go; and a put that fails.
use crate::blocks::{Blocks, SPARE};
use crate::storing::{NO_ROOM, same, sameness};
use anyhow::Context;
use frames::Frame;
use pool::{Cut, Pool, PutFault};
use reading::{Stretch, read_row};
use rows::Entry;
use slot_stores::ImageStore;
use std::alloc::{AllocError, Global};
use stores::{Store, Tripping};

impl<'a, K: Frame> Blocks<'a, K> {
    // A pool over a new image, of which the put or read `trip_at` fails.
    fn pool(
        &self,
        heap: Global,
        trip_at: Option<u64>,
    ) -> Result<Pool<Tripping<ImageStore<K>>>, AllocError> {
        let store = self.image(heap, self.row.len().saturating_add(SPARE))?;
        let mut pool = Pool::new(heap, Tripping::new(store, trip_at));
        pool.start(heap)?;
        Ok(pool)
    }

    // Where the blocks of the row lie in the take.
    fn cuts(&self, heap: Global) -> Result<Vec<Cut>, AllocError> {
        self.row
            .iter()
            .scan(0usize, |at, entry| {
                let cut = Cut {
                    at: *at,
                    len: entry.len,
                };
                *at = at.saturating_add(entry.len);
                Some(cut)
            })
            .collect(heap)
    }

    // Puts the take in new blocks, and tells their numbers.
    fn put<S: Store<Kind = K>>(
        &self,
        heap: Global,
        pool: &mut Pool<S>,
        cuts: &[Cut],
    ) -> Result<Vec<usize>, PutFault> {
        let stretches = [Stretch::Given(self.frames)];
        let mut work = Vec::from_slice(heap, self.frames)?;
        let mut numbers = Vec::new(heap);
        pool.put_blocks(&stretches, cuts, work.as_mut_slice(), &mut numbers)?;
        Ok(numbers)
    }

    // The row with the numbers of its blocks.
    fn named(&self, heap: Global, numbers: &[usize]) -> Result<Vec<Entry>, AllocError> {
        self.row
            .iter()
            .zip(numbers.iter())
            .map(|(entry, number)| Entry {
                block: *number,
                len: entry.len,
            })
            .collect(heap)
    }

    // Reads a few frames across the first border between two blocks, and tells whether they are the take's.
    fn read_across<S: Store<Kind = K>>(
        &self,
        rt: &HostRuntime,
        store: &mut S,
        row: &[Entry],
    ) -> anyhow::Result<()> {
        let [first, _, ..] = row else {
            return Ok(());
        };
        let start = first.len.saturating_sub(2).min(self.frames.len());
        let behind = &self.frames[start..];
        let part = &behind[..behind.len().min(4)];
        let mut buffer = Vec::from_slice(rt.alloc(), &self.frames[..part.len()])?;
        let done = read_row(store, row, start, buffer.as_mut_slice()).is_ok();
        let alike = buffer.iter().zip(part.iter()).all(|(a, b)| same(*a, *b));
        let told = sameness(done && alike);
        let count = part.len();
        println!(rt; "frames {start} and on, {count} of them, read across a border: {told}")?;
        Ok(())
    }

    // Keeps the row in counted blocks, reads from it, and lets it go.
    pub fn keep_row(&self, rt: &HostRuntime) -> anyhow::Result<()> {
        let heap = rt.alloc();
        let cuts = self.cuts(heap)?;
        let mut pool = self.pool(heap, None)?;
        let numbers = self
            .put(heap, &mut pool, cuts.as_slice())
            .ok()
            .context(NO_ROOM)?;
        let row = self.named(heap, numbers.as_slice())?;
        let row = row.as_slice();
        pool.hold(row);
        let (blocks, free, puts) = (row.len(), pool.store.free(), pool.store.counted());
        println!(rt; "row: {blocks} blocks, {puts} puts, {free} numbers free")?;
        self.read_across(rt, &mut pool.store, row)?;
        pool.let_go(row);
        let free = pool.store.free();
        println!(rt; "let go: {free} numbers free")?;
        Ok(())
    }

    // Lets the second put fail: what the first one put is released again.
    pub fn fail_second_put(&self, rt: &HostRuntime) -> anyhow::Result<()> {
        if self.row.len() < 2 {
            return Ok(());
        }
        let heap = rt.alloc();
        let cuts = self.cuts(heap)?;
        let mut pool = self.pool(heap, Some(2))?;
        let before = pool.store.free();
        // 0 where the store told no fault: the line that is printed has a number there.
        let code = match self.put(heap, &mut pool, cuts.as_slice()) {
            Err(PutFault::Store(fault)) => fault.error.code(),
            Ok(_) | Err(PutFault::NoMemory) => 0,
        };
        let after = pool.store.free();
        println!(rt;
            "the second put fails: {code}, numbers free before {before} and after {after}"
        )?;
        Ok(())
    }
}
