// What holds of rows that are cut, changed and mended: each function is there for the theorem that its contract states,
// which no one call of this crate could carry.
ghost use Rattle.rows.specs.Laws.{BorderWhole, FramesStay, SpliceShape, SpliceFew, SpliceSized, SpliceFrames, CopyShape, CopyFew, CopySized, CopyFrames};

// A cut at a border leaves every block whole.
pub fn border_whole()
    ensures { BorderWhole }
{}

// Where a mended list has a kept block, the frames of the pieces are that block's, whatever a frame is.
pub fn frames_stay<F>()
    ensures { FramesStay F }
{}

// A well-sized row that is changed between two positions: what it leaves to mend has the shape of an edit, so that at most
// four blocks are new; mended, it is well-sized again, and has the frames before the change, those put in and those after it.
pub fn row_spliced()
    ensures shape { SpliceShape }
    ensures few { SpliceFew }
    ensures sizes { SpliceSized }
    ensures lengths { SpliceFrames }
{}

// A span that is copied from a well-sized row: the same, and it has as many frames as there are between its positions.
pub fn span_copied()
    ensures shape { CopyShape }
    ensures few { CopyFew }
    ensures sizes { CopySized }
    ensures lengths { CopyFrames }
{}
