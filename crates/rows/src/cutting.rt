// Cutting: the pieces that a span has of a row.
ghost use Rattle.std.specs.Prelude.{◌≡◌, ◌≤◌, length, IfOk, OnErr};
ghost use Rattle.rows.specs.Pieces.{count_of_new, NoneEmpty};
ghost use Rattle.rows.specs.Cutting.{part_of, cut, AddsUp, OwnOffsets, InsideWhole, BordersWhole};

use crate::entry::Entry;
use crate::piece::Piece;
use std::alloc::{AllocError, Global};
use std::ops::Range;

// What of a block lies in a span that is counted from its start: the whole, a loose part or nothing.
fn part(entry: Entry, span: Range<usize>) -> Option<Piece>
    ensures { result ≡ part_of entry span.start span.end }
{
    let count = span.end.min(entry.len).saturating_sub(span.start);
    if count == 0 {
        None
    } else if count == entry.len {
        Some(Piece::whole(entry.block, count))
    } else {
        Some(Piece::loose(count))
    }
}

// The pieces that a span has of a row. Their lengths add up to the span, at most two are loose and none is empty;
// a whole one stands at its block's own offset; a block inside the span is whole, and between two borders every block is.
// Want of memory is the only refusal, and an empty row wants none.
pub fn pieces_of(heap: Global, row: &[Entry], span: Range<usize>) -> Result<Vec<Piece>, AllocError>
    ensures items { IfOk result (λ v. v.items ≡ cut row.now span.start span.end) }
    ensures lengths { IfOk result (λ v. AddsUp row.now span.start span.end v.items) }
    ensures loose { IfOk result (λ v. count_of_new v.items ≤ 2) }
    ensures filled { IfOk result (λ v. NoneEmpty v.items) }
    ensures places { IfOk result (λ v. OwnOffsets row.now span.start v.items) }
    ensures inside { IfOk result (λ v. InsideWhole row.now span.start span.end v.items) }
    ensures borders { IfOk result (λ v. BordersWhole row.now span.start span.end v.items) }
    ensures refused { OnErr result (1 ≤ length row.now) }
{
    let mut out = Vec::new(heap);
    // Both run down to the start of the entry at hand: a `scan` would carry them alike.
    let mut start = span.start;
    let mut end = span.end;
    for entry in row {
        // By hand: an `extend` by what there is takes half as long again, or more.
        if let Some(piece) = part(*entry, start..end) {
            out.push(piece)?;
        }
        start = start.saturating_sub(entry.len);
        end = end.saturating_sub(entry.len);
    }
    Ok(out)
}
