// Mending: pieces are taken from left to right, and a piece that is too short is joined with its neighbour.
ghost use Rattle.std.specs.Prelude.{◌≡◌, ◌≤◌, length, IfOk, OnErr};
ghost use Rattle.std.specs.List.{AllByRecursion};
ghost use Rattle.rows.specs.Pieces.{frames, count_of_new, Within, WellSized};
ghost use Rattle.rows.specs.Mending.{meeting, mended, BlocksStay};
ghost use Rattle.rows.specs.Laws.{Edited};

use crate::piece::Piece;
use std::alloc::{AllocError, Global};

// What one more piece makes of the last of the list: the piece that is settled, if one is, and the new last.
#[derive(Clone, Copy)]
struct Met {
    settled: Option<Piece>,
    last: Piece,
}

// Two lengths may add up to more than a usize holds; half of their sum never does.
fn meet(limit: usize, last: Piece, next: Piece) -> Met
    ensures { result ≡ meeting limit last next }
{
    let least = limit / 2;
    if last.len >= least && next.len >= least {
        return Met {
            settled: Some(last),
            last: next,
        };
    }
    let total = last.len as u128 + next.len as u128;
    if total <= limit as u128 {
        return Met {
            settled: None,
            last: Piece::loose(total as usize),
        };
    }
    let half = total / 2;
    Met {
        settled: Some(Piece::loose(half as usize)),
        last: Piece::loose((total - half) as usize),
    }
}

// The mended list of the pieces. It has as many frames; if each piece has 1 to `limit` frames it is well-sized;
// a block that is kept stands where it stood; pieces that are well-sized stay as they are; and after an edit at most
// four pieces are new. Want of memory is the only refusal, and no pieces want none.
pub fn mend(heap: Global, limit: usize, pieces: &[Piece]) -> Result<Vec<Piece>, AllocError>
    ensures items { IfOk result (λ v. v.items ≡ mended limit pieces.now) }
    ensures lengths { IfOk result (λ v. frames v.items ≡ frames pieces.now) }
    ensures sizes { IfOk result (λ v. AllByRecursion (Within limit) pieces.now → WellSized limit v.items) }
    ensures places { IfOk result (λ v. BlocksStay pieces.now v.items) }
    ensures untouched { IfOk result (λ v. WellSized limit pieces.now → v.items ≡ pieces.now) }
    ensures few { IfOk result (λ v. Edited limit pieces.now → count_of_new v.items ≤ 4) }
    ensures refused { OnErr result (1 ≤ length pieces.now) }
{
    let [first, rest @ ..] = pieces else {
        return Ok(Vec::new(heap));
    };
    let mut out = Vec::with_capacity(heap, pieces.len())?;
    let mut last = *first;
    for next in rest {
        let met = meet(limit, last, *next);
        out.extend(met.settled)?;
        last = met.last;
    }
    out.push(last)?;
    Ok(out)
}

// How many of the pieces are no old block: of a mended list, how many new blocks it asks for.
#[tactic(auto, using(crate::proofs::Sums::counted))]
pub fn new_blocks(pieces: &[Piece]) -> usize
    ensures { result ≡ count_of_new pieces.now }
{
    pieces.iter().filter(|piece| piece.block.is_none()).count()
}
