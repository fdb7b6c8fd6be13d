// The extent as a measure: joining takes the smaller low and the larger high.
ghost use Rattle.measures.specs.Extents.{frame_extent, no_extent, wider};
ghost use Rattle.measures.specs.Laws.{extent_laws};

use crate::extent::Extent;
use crate::measure::Measure;
use frames::Frame;

#[tactic(auto, using(crate::specs::Same::same_extent))]
impl<K: Frame> Measure<K> for Extent {
    ghost worth = { frame_extent K.Frame };

    ghost joined = { wider };

    ghost neutral = { no_extent };

    ghost laws = { extent_laws };

    fn of(frame: K) -> Extent {
        Extent::new(frame.low(), frame.high())
    }

    fn none() -> Extent {
        Extent::new(i32::MAX, i32::MIN)
    }

    fn join(self, other: Extent) -> Extent {
        Extent::new(self.low.min(other.low), self.high.max(other.high))
    }
}
