// The three measures as one, so that a single pass over frames finds them all.
ghost use Rattle.measures.specs.Summaries.{frame_summary, no_summary, joined_summary};
ghost use Rattle.measures.specs.Laws.{summary_laws};

use crate::clip_run::ClipRun;
use crate::energy::Energy;
use crate::extent::Extent;
use crate::measure::Measure;
use crate::summary::Summary;
use frames::Frame;

impl<K: Frame> Measure<K> for Summary {
    ghost worth = { frame_summary K.Frame };

    ghost joined = { joined_summary };

    ghost neutral = { no_summary };

    ghost laws = { summary_laws };

    // Each of the three calls its own function of the parts, which differ in type: there is no list to go over.
    fn of(frame: K) -> Summary {
        Summary {
            extent: <Extent as Measure<K>>::of(frame),
            energy: <Energy as Measure<K>>::of(frame),
            run: <ClipRun as Measure<K>>::of(frame),
        }
    }

    fn none() -> Summary {
        Summary {
            extent: <Extent as Measure<K>>::none(),
            energy: <Energy as Measure<K>>::none(),
            run: <ClipRun as Measure<K>>::none(),
        }
    }

    fn join(self, other: Summary) -> Summary {
        Summary {
            extent: <Extent as Measure<K>>::join(self.extent, other.extent),
            energy: <Energy as Measure<K>>::join(self.energy, other.energy),
            run: <ClipRun as Measure<K>>::join(self.run, other.run),
        }
    }
}
