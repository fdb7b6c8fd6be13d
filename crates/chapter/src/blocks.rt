// The take in blocks: how many frames a block may have, and the row that the blocks are.
ghost use Rattle.std.specs.Prelude.{◌<◌};

use frames::Frame;
use rows::{Entry, Piece, mend};
use slot_stores::ImageStore;
use std::alloc::{AllocError, Global};

// Slots of an image beside those that the take fills.
pub const SPARE: usize = 4;

#[derive(Drop)]
pub struct Blocks<'a, K> {
    pub frames: &'a [K],
    // The most frames of a block.
    pub limit: usize,
    // Well-sized blocks for the take, by their places.
    pub row: Vec<Entry>,
    ghost some: { 0 < limit },
}

// A block limit under which the take fills at most about a thousand slots.
fn limit_for(count: usize) -> usize
    ensures { 0 < result }
{
    (count / 2000)
        .saturating_mul(2)
        .saturating_add(2)
        .clamp(64, 65536)
}

impl<'a, K: Frame> Blocks<'a, K> {
    // Stretches of the limit, the last with what is left, mended.
    pub fn of(heap: Global, frames: &'a [K]) -> Result<Blocks<'a, K>, AllocError> {
        let limit = limit_for(frames.len());
        let stretches: Vec<Piece> = frames
            .chunks(limit)
            .map(|part| Piece::loose(part.len()))
            .collect(heap)?;
        let mended = mend(heap, limit, stretches.as_slice())?;
        let row = mended
            .iter()
            .enumerate()
            .map(|(block, piece)| Entry {
                block,
                len: piece.len,
            })
            .collect(heap)?;
        Ok(Blocks { frames, limit, row })
    }

    // A new image, filled with ones before, so that what the store does not write can be told.
    pub fn image(&self, heap: Global, slots: usize) -> Result<ImageStore<K>, AllocError> {
        // As large as the slots of such an image: six bytes, and room for the frames.
        let slot = K::width().saturating_mul(self.limit).saturating_add(6);
        let bytes = vec![in heap; 0xFFu8; slots.saturating_mul(slot)]?;
        Ok(ImageStore::new(bytes, self.limit))
    }
}
