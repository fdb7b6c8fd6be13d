// The energy of some frames: the sum of theirs.
ghost use Rattle.std.specs.Prelude.{◌≡◌, ◌^◌, ◌≤◌, min};

pub mod measure;

// A sum that stops at 2 ^ 53, so that joining is total and associative. The frames of one row never reach the stop.
#[derive(Clone, Copy, PartialEq, Eq, Debug)]
pub struct Energy {
    pub sum: u64,
    ghost stopped: { sum ≤ 2 ^ 53 },
}

const MOST: u64 = 1 << 53;

impl Energy {
    // An energy of `sum`, or of 2 ^ 53 where it is more.
    pub fn new(sum: u64) -> Energy
        ensures { result.sum ≡ min sum (2 ^ 53) }
    {
        Energy { sum: sum.min(MOST) }
    }
}
