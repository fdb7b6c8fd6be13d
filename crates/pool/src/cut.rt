// Where the frames of a new block lie.

// A new block: where its frames begin in the joined stretches, and how many there are.
#[derive(Clone, Copy, PartialEq, Eq, Debug)]
pub struct Cut {
    pub at: usize,
    pub len: usize,
}
