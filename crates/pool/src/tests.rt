// New blocks, counts and reads over a store that counts them and can be made to fail.
use crate::{Cut, Pool};
use frames::Mono;
use reading::{Stretch, read_row};
use rows::Entry;
use slot_stores::MemoryStore;
use std::alloc::{AllocError, Global};
use std::test::Fail;
use stores::{Store, Tripping};

const ROW: [Entry; 3] = [
    Entry { block: 0, len: 5 },
    Entry { block: 1, len: 6 },
    Entry { block: 2, len: 7 },
];

const CUTS: [Cut; 3] = [
    Cut { at: 0, len: 5 },
    Cut { at: 5, len: 6 },
    Cut { at: 11, len: 7 },
];

// A pool of six numbers of at most eight frames, whose put or read number `trip_at` fails, if one is to.
fn pool(heap: Global, trip_at: Option<u64>) -> Result<Pool<Tripping<MemoryStore<Mono>>>, Fail> {
    let frames = vec![in heap; Mono::new(0); 48]?;
    let mut pool = Pool::new(heap, Tripping::new(MemoryStore::new(frames, 8), trip_at));
    pool.start(heap)?;
    Ok(pool)
}

// The frames 0 to 17.
fn take(heap: Global) -> Result<Vec<Mono>, Fail> {
    Ok((0i16..18).map(Mono::new).collect(heap)?)
}

// Puts a block for each cut of the stretches, by a work buffer like `room`.
fn puts<S: Store>(
    heap: Global,
    pool: &mut Pool<S>,
    stretches: &[Stretch<'_, S::Kind>],
    cuts: &[Cut],
    room: &[S::Kind],
) -> Result<bool, AllocError> {
    let mut work = Vec::from_slice(heap, room)?;
    let mut numbers = Vec::new(heap);
    let put = pool.put_blocks(stretches, cuts, work.as_mut_slice(), &mut numbers);
    Ok(put.is_ok())
}

// Puts the frames as the blocks of the row.
fn put_row<S: Store>(
    heap: Global,
    pool: &mut Pool<S>,
    frames: &[S::Kind],
) -> Result<bool, AllocError> {
    puts(heap, pool, &[Stretch::Given(frames)], &CUTS, frames)
}

// Puts one block of the first four frames of the row and its last four.
fn put_ends<S: Store>(
    heap: Global,
    pool: &mut Pool<S>,
    room: &[S::Kind],
) -> Result<bool, AllocError> {
    let ends = [
        Stretch::Row {
            entries: &ROW,
            span: 0..4,
        },
        Stretch::Row {
            entries: &ROW,
            span: 14..18,
        },
    ];
    puts(heap, pool, &ends, &[Cut { at: 0, len: 8 }], room)
}

#[test]
fn puts_and_reads_are_counted(rt: HostRuntime) -> Result<(), Fail> {
    let mut pool = pool(rt.alloc(), None)?;
    assert!(rt; put_row(rt.alloc(), &mut pool, take(rt.alloc())?.as_slice())?);
    assert_eq!(rt; pool.store.counted(), 3);
    let mut buffer = vec![in rt.alloc(); Mono::new(0); 10]?;
    assert!(rt; read_row(&mut pool.store, &ROW, 3, buffer.as_mut_slice()).is_ok());
    assert_eq!(rt; pool.store.counted(), 6);
    assert!(rt; put_ends(rt.alloc(), &mut pool, buffer.as_slice())?);
    assert_eq!(rt; pool.store.counted(), 9);
    assert!(rt; buffer.len() == 10);
    assert_eq!(rt; (buffer[0].value, buffer[9].value), (3, 12));
    Ok(())
}

#[test]
fn a_failed_put_leaves_nothing_behind(rt: HostRuntime) -> Result<(), Fail> {
    let mut pool = pool(rt.alloc(), Some(2))?;
    assert!(rt; !put_row(rt.alloc(), &mut pool, take(rt.alloc())?.as_slice())?);
    assert!(rt; pool.store.is_ailing());
    assert_eq!(rt; pool.store.free(), 6);
    Ok(())
}

#[test]
fn a_block_goes_with_its_last_entry(rt: HostRuntime) -> Result<(), Fail> {
    let mut pool = pool(rt.alloc(), None)?;
    assert!(rt; put_row(rt.alloc(), &mut pool, take(rt.alloc())?.as_slice())?);
    pool.hold(&ROW);
    pool.hold(&ROW[1..2]);
    pool.let_go(&ROW);
    assert_eq!(rt;
        (pool.count(0), pool.count(1), pool.store.free()),
        (0, 1, 5)
    );
    pool.let_go(&ROW[1..2]);
    assert_eq!(rt; (pool.count(1), pool.store.free()), (0, 6));
    Ok(())
}
