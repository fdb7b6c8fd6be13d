// An entry of a row: which block stands there, and how many frames it has.

#[derive(Clone, Copy, PartialEq, Eq, Debug)]
pub struct Entry {
    pub block: usize,
    pub len: usize,
}
