// Reading a take from its text.
ghost use Rattle.std.specs.Prelude.{◌≡◌, ◌<◌, length, IfOk, OnErr};
ghost use Rattle.takes.specs.Lines.{lines};
ghost use Rattle.takes.specs.Frames.{frames_in, unread_in};

use crate::lines::Lines;
use crate::take::Take;
use frames::Frame;
use std::alloc::{AllocError, Global};

// The frames of the lines that are one's, in order, and the numbers of the other lines. Only want of memory refuses it, and an empty text wants none.
pub fn read_take<K: Frame>(heap: Global, text: &[u8]) -> Result<Take<K>, AllocError>
    ensures frames { IfOk result (λ t. t.frames.items ≡ frames_in K.Frame.parsed (lines text.now)) }
    ensures unread { IfOk result (λ t. t.unread.items ≡ unread_in K.Frame.parsed 1 (lines text.now)) }
    ensures refused { OnErr result (0 < length text.now) }
{
    let mut frames = Vec::new(heap);
    let mut unread = Vec::new(heap);
    for (at, line) in Lines::of(text).enumerate() {
        match K::read_line(line) {
            Some(frame) => frames.push(frame)?,
            None => unread.push(at + 1)?,
        }
    }
    Ok(Take { frames, unread })
}
