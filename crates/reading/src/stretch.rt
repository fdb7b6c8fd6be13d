// Where the frames of new blocks come from.
use rows::Entry;
use std::ops::Range;

// A span of a row, or frames that are given.
#[derive(Drop)]
pub enum Stretch<'a, K> {
    Row {
        entries: &'a [Entry],
        span: Range<usize>,
    },
    Given(&'a [K]),
}
