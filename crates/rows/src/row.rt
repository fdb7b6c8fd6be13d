// A row: a list of at most 64 entries.
ghost use Rattle.std.specs.Prelude.{◌≡◌, ◌-◌, ◌^◌, ◌<◌, ◌≤◌, min, [], vec_len, MatchResult};
ghost use Rattle.rows.specs.Pieces.{frames};
ghost use Rattle.rows.specs.Cutting.{wholes};

use crate::entry::Entry;
use crate::length::row_len;
use std::alloc::Global;

// Clauses name the vector, which is what a row is tried from and gives back: a model would show the items alone.
#[derive(Drop)]
pub struct Row {
    entries: Vec<Entry>,
    ghost few: { vec_len entries ≤ 64 },
}

impl Row {
    // How many entries a row may have.
    pub const MOST: usize = 64;

    // The empty row, which takes no memory.
    pub fn new(heap: Global) -> Row
        ensures { result.entries.items ≡ [] }
    {
        Row {
            entries: Vec::new(heap),
        }
    }

    // The entries from left to right.
    pub fn entries(&self) -> &[Entry]
        ensures { result.now ≡ self.now.entries.items }
    {
        self.entries.as_slice()
    }

    // How many frames the blocks have, or the greatest usize if they have more.
    #[tactic(auto, using(crate::proofs::Sums::held_frames, crate::proofs::Sums::total_frames))]
    pub fn len(&self) -> usize
        ensures { result ≡ min (frames (wholes self.now.entries.items)) (2 ^ 64 - 1) }
    {
        row_len(self.entries())
    }
}

// The row of these entries; more than 64 are given back.
impl TryFrom<Vec<Entry>> for Row {
    type Error = Vec<Entry>;

    ghost try_from_gives = { λ entries result. MatchResult result (λ row. (row.entries ≡ entries) × (vec_len entries ≤ 64)) (λ back. (back ≡ entries) × (64 < vec_len entries)) };

    fn try_from(entries: Vec<Entry>) -> Result<Row, Vec<Entry>> {
        if entries.len() > Row::MOST {
            return Err(entries);
        }
        Ok(Row { entries })
    }
}
