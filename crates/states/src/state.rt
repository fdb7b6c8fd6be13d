// A state: tracks 0 to 3, and the clip, row 4.
ghost use Rattle.std.specs.Prelude.{◌≡◌, length};

use rows::Row;

// That there are five rows stands as a fact too: clauses see a list.
#[derive(Drop)]
pub struct State {
    pub(crate) rows: [Row; 5],
    ghost five: { length rows ≡ 5 },
}
