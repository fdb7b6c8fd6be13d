// The take as blocks of an image: put, read again, released, through a read that fails, and written to a file.
ghost use Rattle.std.specs.Prelude.{◌≡◌, true};

use crate::blocks::{Blocks, SPARE};
use anyhow::Context;
use frames::Frame;
use std::alloc::Global;
use std::fs;
use stores::{Store, Tripping};

const FILE: &str = "chapter.image";
// What is told where a put is refused: alone, without the store's fault.
pub const NO_ROOM: &str = "the take does not fit the image";

// How it is told whether two things are the same.
pub fn sameness(same: bool) -> &'static str {
    if same { "the same" } else { "not the same" }
}

fn try_read<S: Store>(
    rt: &HostRuntime,
    store: &mut S,
    number: usize,
    buffer: &mut [S::Kind],
) -> anyhow::Result<()> {
    match store.read(number, 0, buffer) {
        Ok(()) => println!(rt; "read: done")?,
        Err(fault) => println!(rt; "read: {fault}")?,
    }
    Ok(())
}

// A read that fails on purpose: the store is ailing until it is rearmed, and no block is lost.
fn show_trip<S: Store + Drop>(
    rt: &HostRuntime,
    store: S,
    number: usize,
    room: S::Kind,
) -> anyhow::Result<S> {
    let mut tripping = Tripping::new(store, Some(1));
    // A list of one: no proof says that an array of a kind that is not known here fits in memory.
    let mut buffer = vec![in rt.alloc(); room; 1]?;
    let buffer = buffer.as_mut_slice();
    try_read(rt, &mut tripping, number, buffer)?;
    try_read(rt, &mut tripping, number, buffer)?;
    tripping.rearm();
    try_read(rt, &mut tripping, number, buffer)?;
    let counted = tripping.counted();
    println!(rt; "puts and reads that were not refused: {counted}")?;
    Ok(tripping.into_below())
}

fn write_file(rt: &HostRuntime, bytes: &[u8]) -> anyhow::Result<()> {
    fs::write(rt, FILE, bytes)?;
    let again = fs::read(rt, FILE)?;
    let count = again.len();
    let told = sameness(again.as_slice() == bytes);
    println!(rt; "{FILE}: {count} bytes, read again: {told}")?;
    Ok(())
}

// Whether two frames are the same, by their bytes: no more is known of a kind than its laws.
pub fn same<K: Frame>(a: K, b: K) -> bool
    ensures told { result ≡ true → a ≡ b }
    ensures found { a ≡ b → result ≡ true }
{
    let mut first = [0u8; 256];
    let mut second = [0u8; 256];
    let width = K::width();
    let _ = a.write_bytes(&mut first);
    let _ = b.write_bytes(&mut second);
    first[..width] == second[..width]
}

impl<'a, K: Frame> Blocks<'a, K> {
    // Puts the frames in blocks of the limit, and tells their numbers.
    fn put_all<S: Store<Kind = K>>(
        &self,
        heap: Global,
        store: &mut S,
    ) -> anyhow::Result<Vec<usize>> {
        self.frames
            .chunks(self.limit)
            .map(|part| -> anyhow::Result<usize> { store.put(part).ok().context(NO_ROOM) })
            .try_collect(heap)
    }

    // Reads every block again and counts the frames that come back as they were.
    fn read_again<S: Store<Kind = K>>(
        &self,
        heap: Global,
        store: &mut S,
        numbers: &[usize],
    ) -> anyhow::Result<usize> {
        let mut count: usize = 0;
        for (part, number) in self.frames.chunks(self.limit).zip(numbers.iter()) {
            let mut buffer = Vec::from_slice(heap, part)?;
            if store.read(*number, 0, buffer.as_mut_slice()).is_ok() {
                let alike = part
                    .iter()
                    .zip(buffer.iter())
                    .filter(|(a, b)| same(**a, **b))
                    .count();
                count = count.saturating_add(alike);
            }
        }
        Ok(count)
    }

    // Keeps the take in an image, and tells what became of it.
    pub fn keep(&self, rt: &HostRuntime) -> anyhow::Result<()> {
        let Some(first) = self.frames.first() else {
            return Ok(());
        };
        let heap = rt.alloc();
        let slots = (self.frames.len() / self.limit).saturating_add(1 + SPARE);
        let mut store = self.image(heap, slots)?;
        let numbers = self.put_all(heap, &mut store)?;
        let (put, limit, free) = (numbers.len(), self.limit, store.free());
        println!(rt; "image: {put} blocks of at most {limit} frames put, {free} numbers free")?;
        let count = self.read_again(heap, &mut store, numbers.as_slice())?;
        println!(rt; "frames read again and the same: {count}")?;
        for number in numbers.as_slice() {
            let _ = store.release(*number);
        }
        let free = store.free();
        println!(rt; "released: {free} numbers free")?;
        let numbers = self.put_all(heap, &mut store)?;
        let Some(number) = numbers.first() else {
            return Ok(());
        };
        let store = show_trip(rt, store, *number, *first)?;
        write_file(rt, store.into_bytes().as_slice())
    }
}
