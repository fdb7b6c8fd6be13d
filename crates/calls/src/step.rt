// The five steps of an edit, each on a track.
// Each variant names its track, as the plain-list editor's steps do: a struct around them would be no plainer.
use crate::span::Span;

#[derive(Drop)]
pub enum Step<'a, K> {
    // The clip becomes the frames of a span.
    Copy {
        track: usize,
        span: Span,
    },
    // The frames of a span are taken out.
    Delete {
        track: usize,
        span: Span,
    },
    // The clip is put in at a position.
    Paste {
        track: usize,
        at: usize,
    },
    // Frames are put in at a position.
    Insert {
        track: usize,
        at: usize,
        frames: &'a [K],
    },
    // Frames are put in at a position, in place of as many.
    Overwrite {
        track: usize,
        at: usize,
        frames: &'a [K],
    },
}
