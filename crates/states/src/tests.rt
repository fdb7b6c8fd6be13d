// States over a pool of six numbers, of which four have a block.
use crate::{State, drop_oldest, hold_state, keep_newest, let_go_state, place_row};
use frames::Mono;
use pool::Pool;
use rows::{Entry, Row};
use slot_stores::MemoryStore;
use std::alloc::Global;
use std::test::Fail;
use stores::Store;

const A: Entry = Entry { block: 0, len: 2 };

const B: Entry = Entry { block: 1, len: 2 };

const C: Entry = Entry { block: 2, len: 2 };

// The blocks 0 to 3 of two frames, which nothing names yet.
fn pool(heap: Global) -> Result<Pool<MemoryStore<Mono>>, Fail> {
    let frames = vec![in heap; Mono::new(0); 24]?;
    let mut pool = Pool::new(heap, MemoryStore::new(frames, 4));
    pool.start(heap)?;
    for _ in 0..4 {
        pool.put(&[Mono::new(1), Mono::new(2)])?;
    }
    Ok(pool)
}

// A row of the entries.
fn row(heap: Global, entries: &[Entry]) -> Result<Row, Fail> {
    Ok(Row::try_from(Vec::from_slice(heap, entries)?)?)
}

// How many entries name the blocks 0, 1 and 2, and how many numbers are free.
fn told<S: Store>(pool: &Pool<S>) -> (u32, u32, u32, usize) {
    (
        pool.count(0),
        pool.count(1),
        pool.count(2),
        pool.store.free(),
    )
}

#[test]
fn the_oldest_goes_with_what_only_it_names(rt: HostRuntime) -> Result<(), Fail> {
    let heap = rt.alloc();
    let mut pool = pool(heap)?;
    let mut first = State::empty(heap);
    place_row(&mut pool, &mut first, 0, row(heap, &[A, B])?);
    place_row(&mut pool, &mut first, 4, row(heap, &[B])?);
    assert_eq!(rt; told(&pool), (1, 2, 0, 2));
    let mut second = first.copied(heap)?;
    hold_state(&mut pool, &second);
    assert_eq!(rt; told(&pool), (2, 4, 0, 2));
    place_row(&mut pool, &mut second, 0, row(heap, &[B, C])?);
    assert_eq!(rt; told(&pool), (1, 4, 1, 2));
    let mut states = Vec::new(heap);
    states.push(first)?;
    states.push(second)?;
    drop_oldest(&mut pool, &mut states);
    assert!(rt; states.len() == 1);
    assert_eq!(rt; told(&pool), (0, 2, 1, 3));
    drop_oldest(&mut pool, &mut states);
    assert!(rt; states.is_empty());
    assert_eq!(rt; told(&pool), (0, 0, 0, 5));
    drop_oldest(&mut pool, &mut states);
    assert_eq!(rt; told(&pool), (0, 0, 0, 5));
    Ok(())
}

#[test]
fn a_copy_has_the_same_rows(rt: HostRuntime) -> Result<(), Fail> {
    let heap = rt.alloc();
    let mut pool = pool(heap)?;
    let mut state = State::empty(heap);
    for (number, entries) in [&[A, B], &[B, C], &[C, C], &[B, A], &[A, C]]
        .into_iter()
        .enumerate()
    {
        place_row(&mut pool, &mut state, number, row(heap, entries)?);
    }
    let copy = state.copied(heap)?;
    for number in 0..5 {
        assert!(rt; copy.row(number) == state.row(number));
    }
    assert!(rt; copy.row(3) == [B, A].as_slice());
    assert!(rt; copy.row(5).is_empty());
    Ok(())
}

#[test]
fn a_row_releases_what_only_the_old_one_named(rt: HostRuntime) -> Result<(), Fail> {
    let heap = rt.alloc();
    let mut pool = pool(heap)?;
    let mut state = State::empty(heap);
    place_row(&mut pool, &mut state, 2, row(heap, &[A, B, A])?);
    assert_eq!(rt; told(&pool), (2, 1, 0, 2));
    place_row(&mut pool, &mut state, 2, row(heap, &[B])?);
    assert_eq!(rt; told(&pool), (0, 1, 0, 3));
    // The state has no such row.
    place_row(&mut pool, &mut state, 5, row(heap, &[C])?);
    assert_eq!(rt; told(&pool), (0, 1, 0, 3));
    let_go_state(&mut pool, &state);
    assert_eq!(rt; told(&pool), (0, 0, 0, 4));
    Ok(())
}

#[test]
fn the_newest_fifteen_stay(rt: HostRuntime) -> Result<(), Fail> {
    let heap = rt.alloc();
    let mut pool = pool(heap)?;
    let mut states = Vec::new(heap);
    for number in 0..17 {
        let mut state = State::empty(heap);
        let entry = if number == 0 {
            A
        } else if number == 16 {
            C
        } else {
            B
        };
        place_row(&mut pool, &mut state, 1, row(heap, &[entry])?);
        states.push(state)?;
    }
    assert_eq!(rt; told(&pool), (1, 15, 1, 2));
    keep_newest(&mut pool, &mut states, 16);
    assert!(rt; states.len() == 15);
    assert_eq!(rt; told(&pool), (0, 15, 0, 4));
    keep_newest(&mut pool, &mut states, 3);
    assert!(rt; states.len() == 3);
    assert_eq!(rt; told(&pool), (0, 3, 0, 4));
    Ok(())
}
