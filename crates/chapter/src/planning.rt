// What mending makes of the take's row when a stretch is taken out.
use crate::blocks::Blocks;
use frames::Frame;
use rows::{Piece, mend, new_blocks, pieces_of};
use std::fmt;

// The lengths of pieces, a new block's with a mark.
#[derive(Clone, Copy)]
struct Lengths<'a>(&'a [Piece]);

impl<'a> fmt::Display for Lengths<'a> {
    fn fmt<W: fmt::Write>(&self, f: &mut fmt::Formatter<W>) -> fmt::Result {
        for piece in self.0 {
            let mark = if piece.block.is_some() { "" } else { "+" };
            write!(f, " {}{mark}", piece.len)?;
        }
        Ok(())
    }
}

impl<'a, K: Frame> Blocks<'a, K> {
    // What is left of the take as a row when the frames from a third to a half of it are taken out.
    pub fn plan(&self, rt: &HostRuntime) -> anyhow::Result<()> {
        let heap = rt.alloc();
        let count = self.frames.len();
        let (from, to) = (count / 3, count / 2);
        let mut pieces = pieces_of(heap, self.row.as_slice(), 0..from)?;
        let behind = pieces_of(heap, self.row.as_slice(), to..count)?;
        pieces.extend_from_slice(behind.as_slice())?;
        let mended = mend(heap, self.limit, pieces.as_slice())?;
        let new = new_blocks(mended.as_slice());
        println!(rt; "taking out frames {from} to {to}, new blocks: {new}")?;
        println!(rt; "pieces:{}", Lengths(pieces.as_slice()))?;
        println!(rt; "mended:{}", Lengths(mended.as_slice()))?;
        Ok(())
    }
}
