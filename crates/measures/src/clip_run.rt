// How the clipped frames of a stretch lie in it.
ghost use Rattle.measures.specs.Runs.{Sound};

pub mod measure;

// The number of frames, of clipped ones at the start and at the end, and of the longest run of clipped ones.
// Head and tail are at most best, best is at most count, and if one of the three is the count, all are.
#[derive(Clone, Copy, PartialEq, Eq, Debug)]
pub struct ClipRun {
    pub count: u32,
    pub head: u32,
    pub tail: u32,
    pub best: u32,
    ghost sound: { Sound count head tail best },
}
