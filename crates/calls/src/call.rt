// The calls of an editor, with their arguments.
use crate::step::Step;

#[derive(Drop)]
pub enum Call<'a, K> {
    Start,
    Open,
    Step(Step<'a, K>),
    Keep,
    Withdraw,
    Undo,
    Redo,
    Forget,
    Rearm,
    // So many frames of a row, from a start on. A row is told by its number, as whoever calls gives it:
    // 0 to 3 are the tracks, 4 the clip, and any other is refused.
    Read {
        row: usize,
        start: usize,
        count: usize,
    },
}
