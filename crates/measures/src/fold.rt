// The measure of a list of frames, for every measure and every kind of frame.
ghost use Rattle.std.specs.Prelude.{◌≡◌};
ghost use Rattle.measures.specs.Measured.{measured, PartsJoined};

use crate::measure::Measure;
use frames::Frame;

// The values of the frames, joined in order. Where the frames are cut in two, it is the joining of the parts' measures.
pub fn measure_of<K: Frame, M: Measure<K>>(frames: &[K]) -> M
    ensures value { result ≡ measured M.Measure.worth M.Measure.joined M.Measure.neutral frames.now }
    ensures parts { PartsJoined M.Measure.worth M.Measure.joined M.Measure.neutral frames.now result }
{
    // A loop: of a `fold` over a bound's functions, as was tried, the check does not find what it gives.
    let mut total = M::none();
    for frame in frames {
        total = total.join(M::of(*frame));
    }
    total
}
