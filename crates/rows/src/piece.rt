// A piece: a whole old block, or loose frames that belong to none.
ghost use Rattle.std.specs.Prelude.{◌≡◌};
ghost use Rattle.rows.specs.Pieces.{loose_of, whole_of};

// `block` is `None` where the frames are loose.
#[derive(Clone, Copy, PartialEq, Eq, Debug)]
pub struct Piece {
    pub block: Option<usize>,
    pub len: usize,
}

impl Piece {
    // Frames that are no whole old block.
    pub fn loose(len: usize) -> Piece
        ensures { result ≡ loose_of len }
    {
        Piece { block: None, len }
    }

    // The whole of an old block.
    pub fn whole(block: usize, len: usize) -> Piece
        ensures { result ≡ whole_of block len }
    {
        Piece {
            block: Some(block),
            len,
        }
    }
}
