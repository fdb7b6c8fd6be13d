// The rows of a state: five empty ones, copies, and one in the place of another.
ghost use Rattle.std.specs.Prelude.{◌≡◌, ◌<◌, ◌≤◌, ◌≢◌, [], length, IfOk, OnErr, slice_index_or, slice_set};
ghost use Rattle.states.specs.Rows.{contents, entries_of, blank};

use crate::state::State;
use rows::{Entry, Row};
use std::alloc::{AllocError, Global};

impl State {
    // Five empty rows, which take no memory.
    pub fn empty(heap: Global) -> State
        ensures { contents result ≡ blank }
    {
        State {
            rows: [
                Row::new(heap),
                Row::new(heap),
                Row::new(heap),
                Row::new(heap),
                Row::new(heap),
            ],
        }
    }

    // The same entries in rows of their own. Want of memory is the only refusal, and five empty rows want none.
    pub fn copied(&self, heap: Global) -> Result<State, AllocError>
        ensures rows { IfOk result (λ s. contents s ≡ contents self.now) }
        ensures refused { OnErr result (contents self.now ≢ blank) }
    {
        let [a, b, c, d, e] = &self.rows;
        Ok(State {
            rows: [
                row_copied(a, heap)?,
                row_copied(b, heap)?,
                row_copied(c, heap)?,
                row_copied(d, heap)?,
                row_copied(e, heap)?,
            ],
        })
    }

    // The entries of a row; a row that the state does not have is empty.
    pub fn row(&self, number: usize) -> &[Entry]
        ensures { result.now ≡ slice_index_or (contents self.now) number [] }
    {
        self.rows.get(number).map_or(&[], |row| row.entries())
    }

    // Puts a row in the place of another, which is given back.
    pub(crate) fn swap_row(&mut self, number: usize, row: Row) -> Row
        requires { number < 5 }
        ensures rows { contents self.new ≡ slice_set (contents self.old) number (entries_of row) }
        ensures old { entries_of result ≡ slice_index_or (contents self.old) number [] }
    {
        std::mem::replace(&mut self.rows[number], row)
    }
}

// The same entries in a row of its own; an empty one wants no memory.
fn row_copied(row: &Row, heap: Global) -> Result<Row, AllocError>
    ensures row { IfOk result (λ r. entries_of r ≡ entries_of row.now) }
    ensures refused { OnErr result (1 ≤ length (entries_of row.now)) }
{
    if row.entries().is_empty() {
        return Ok(Row::new(heap));
    }
    let entries = Vec::from_slice(heap, row.entries())?;
    Ok(Row::try_from(entries).unwrap())
}
