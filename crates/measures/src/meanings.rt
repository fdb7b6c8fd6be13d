// The three measures of a list of frames, with what they mean of it: three names for one fold, since each says
// something else of the list.
ghost use Rattle.std.specs.Prelude.{◌≡◌, ◌^◌, ◌≤◌, min, length, sum_by};
ghost use Rattle.measures.specs.Measured.{measured};
ghost use Rattle.measures.specs.Extents.{frame_extent, no_extent, wider};
ghost use Rattle.measures.specs.ClipRuns.{run_of, frame_run, no_run, bridged};
ghost use Rattle.measures.specs.Meanings.{Reaches, Tells};

use crate::clip_run::ClipRun;
use crate::energy::Energy;
use crate::extent::Extent;
use crate::fold::measure_of;
use frames::Frame;

// The smallest and the largest number of the frames: both are reached, and none lies outside.
pub fn extent_of<K: Frame>(frames: &[K]) -> Extent
    ensures value { result ≡ measured (frame_extent K.Frame) wider no_extent frames.now }
    ensures reaches { Reaches K.Frame frames.now result }
{
    measure_of::<K, Extent>(frames)
}

// The sum of the frames' energies; of more than 2 ^ 22 frames it may stop at 2 ^ 53.
pub fn energy_of<K: Frame>(frames: &[K]) -> Energy
    ensures stops { result.sum ≡ min (sum_by K.Frame.power frames.now) (2 ^ 53) }
    ensures sum { length frames.now ≤ 2 ^ 22 → result.sum ≡ sum_by K.Frame.power frames.now }
{
    measure_of::<K, Energy>(frames)
}

// How the clipped frames lie; of more than 2 ^ 30 frames it tells so many, all clipped.
pub fn clip_run_of<K: Frame>(frames: &[K]) -> ClipRun
    ensures value { result ≡ measured (λ x. frame_run (K.Frame.clips x)) bridged no_run frames.now }
    ensures tells { length frames.now ≤ 2 ^ 30 → Tells K.Frame.clips frames.now (run_of result) }
{
    measure_of::<K, ClipRun>(frames)
}
