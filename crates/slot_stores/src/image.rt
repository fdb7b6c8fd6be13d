// A store in the bytes of an image, whose format specs/Image gives. It never fails.
ghost use Rattle.std.specs.Prelude.{◌≡◌, ◌+◌, ◌*◌, ◌<◌, ◌≤◌, vec_len};
ghost use Rattle.slot_stores.specs.Slots.{unused};
ghost use Rattle.slot_stores.specs.Image.{image_slots, slot_bytes};
ghost use Rattle.slot_stores.specs.InImage.{image, Begins};

use crate::slots::slot_count;
use frames::Frame;
use std::marker::PhantomData;

pub mod reached;
pub mod slot;
pub mod store;

#[derive(Drop)]
pub struct ImageStore<K> {
    bytes: Vec<u8>,
    limit: usize,
    kind: PhantomData<K>,
}

impl<K: Frame> ImageStore<K> {
    // A store with all numbers free, in as many slots as lie whole in the image.
    pub fn new(bytes: Vec<u8>, limit: usize) -> ImageStore<K>
        ensures meaning { image K.Frame result ≡ unused limit (image_slots K.Frame.wide limit bytes.items) }
        ensures bytes { Begins K.Frame bytes.items limit result }
    {
        let mut store = ImageStore {
            bytes,
            limit,
            kind: PhantomData,
        };
        // By number, since a proof does not learn what is written through `chunks_exact_mut`, as was tried.
        for number in 0..store.slots() {
            let at = store.slot_start(number);
            store.bytes[at..at + 4].copy_from_slice(&[0; 4]);
        }
        store
    }

    // Gives the image back.
    pub fn into_bytes(self) -> Vec<u8>
        ensures { result ≡ self.bytes }
    {
        let ImageStore { bytes, .. } = self;
        bytes
    }

    // How many slots the image has.
    fn slots(&self) -> usize
        ensures { result ≡ image_slots K.Frame.wide self.now.limit self.now.bytes.items }
    {
        // Such a limit has no slots, and the size of one might be no `usize`.
        if self.limit > 65536 {
            return 0;
        }
        slot_count(self.limit, self.slot_size(), self.bytes.len())
    }

    // How many bytes a slot has.
    fn slot_size(&self) -> usize
        requires { self.now.limit ≤ 65536 }
        ensures { result ≡ slot_bytes K.Frame.wide self.now.limit }
    {
        6 + K::width() * self.limit
    }

    // Where a slot begins. A place and no slice: what is written through a slice that a function lends
    // would need a promise of its own.
    fn slot_start(&self, number: usize) -> usize
        requires { number < image_slots K.Frame.wide self.now.limit self.now.bytes.items }
        ensures value { result ≡ number * slot_bytes K.Frame.wide self.now.limit }
        ensures within { result + slot_bytes K.Frame.wide self.now.limit ≤ vec_len self.now.bytes }
    {
        number * self.slot_size()
    }
}
