// What the stores do, on examples.
use crate::image::ImageStore;
use crate::memory::MemoryStore;
use frames::Mono;
use std::process::Abort;
use std::test::Fail;
use stores::{Store, StoreFault, Tripping};

// The number of the error, if there is one.
fn code<T: Drop>(answer: Result<T, StoreFault>) -> Option<u8> {
    answer.err().map(|fault| fault.error.code())
}

// Puts, reads, releases and puts again in a new store of two slots of four frames; what it refuses then.
fn keeps_blocks<S: Store<Kind = Mono> + Drop>(rt: &impl Abort, mut store: S) -> Result<(), Fail> {
    let first = store.put(&[Mono::new(1), Mono::new(-2), Mono::new(3)])?;
    let second = store.put(&[Mono::new(4)])?;
    let mut pair = [Mono::new(0); 2];
    store.read(first, 1, &mut pair)?;
    assert_eq!(rt; pair, [Mono::new(-2), Mono::new(3)]);
    store.release(first)?;
    assert_eq!(rt;
        [
            store.free(),
            store.block_len(first),
            store.block_len(second),
        ],
        [1, 0, 1]
    );
    assert_eq!(rt; store.put(&[Mono::new(7); 4])?, first);
    refuses_others(rt, &mut store);
    Ok(())
}

// What the same store, now with both numbers taken, refuses.
fn refuses_others<S: Store<Kind = Mono>>(rt: &impl Abort, store: &mut S) {
    let mut pair = [Mono::new(8); 2];
    let codes = [
        code(store.read(2, 0, &mut pair)),
        code(store.read(0, 3, &mut pair)),
        code(store.read(0, 4, &mut pair[0..0])),
        code(store.put(&[])),
        code(store.put(&[Mono::new(6); 5])),
        code(store.put(&[Mono::new(6); 4])),
        code(store.release(2)),
    ];
    assert_eq!(rt; codes, [22, 23, 24, 24, 24, 25, 22].map(Some));
    assert_eq!(rt; pair, [Mono::new(8); 2]);
}

#[test]
fn memory_keeps_blocks(rt: HostRuntime) -> Result<(), Fail> {
    let frames = vec![in rt.alloc(); Mono::new(9); 8]?;
    keeps_blocks(&rt, MemoryStore::new(frames, 4))
}

#[test]
fn image_keeps_blocks(rt: HostRuntime) -> Result<(), Fail> {
    let bytes = vec![in rt.alloc(); 255; 28]?;
    keeps_blocks(&rt, ImageStore::new(bytes, 4))
}

#[test]
fn image_writes_no_more_than_a_block(rt: HostRuntime) -> Result<(), Fail> {
    let mut store: ImageStore<Mono> = ImageStore::new(vec![in rt.alloc(); 255; 15]?, 4);
    let number = store.put(&[Mono::new(513)])?;
    store.release(number)?;
    let number = store.put(&[Mono::new(513)])?;
    assert_eq!(rt; number, 0);
    let expected = vec![in rt.alloc(); 1, 0, 0, 0, 4, 10, 1, 2, 255, 255, 255, 255, 255, 255, 255]?;
    assert_eq!(rt; store.into_bytes(), expected);
    Ok(())
}

#[test]
fn tripping_fails_once(rt: HostRuntime) -> Result<(), Fail> {
    let memory = MemoryStore::new(vec![in rt.alloc(); Mono::new(0); 8]?, 4);
    let mut store = Tripping::new(memory, Some(3));
    let mut one = [Mono::new(0)];
    let codes = [
        code(store.put(&[Mono::new(1)])),
        code(store.put(&[])),
        code(store.read(0, 0, &mut one)),
        code(store.put(&[Mono::new(2)])),
        code(store.read(0, 0, &mut one)),
    ];
    assert_eq!(rt; codes, [None, Some(24), None, Some(26), Some(21)]);
    assert_eq!(rt; store.counted(), 3);
    store.rearm();
    assert_eq!(rt; code(store.read(0, 0, &mut one)), None);
    assert_eq!(rt; store.counted(), 4);
    Ok(())
}
