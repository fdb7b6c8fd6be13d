// The clip run as a measure: heads and tails go on over a stretch that is clipped whole, and the best may bridge the joint.
ghost use Rattle.std.specs.Prelude.{◌≡◌, ◌+◌, ◌^◌, ◌<◌, if◌then◌else◌, nat_eq};
ghost use Rattle.measures.specs.ClipRuns.{frame_run, no_run, bridged};
ghost use Rattle.measures.specs.Laws.{clip_run_laws};

use crate::clip_run::ClipRun;
use crate::measure::Measure;
use frames::Frame;

// The most frames that a clip run counts; a longer stretch is told as one of so many, all clipped.
const MOST: u32 = 1 << 30;

// The run at one end of a stretch of `count` frames, which goes on by `more` where it is the whole stretch.
fn go_on(run: u32, count: u32, more: u32) -> u32
    requires { count + more < 2 ^ 32 }
    ensures { result ≡ (if nat_eq run count then count + more else run) }
{
    if run == count { count + more } else { run }
}

#[tactic(auto, using(crate::specs::Bridges::same_clip_run))]
impl<K: Frame> Measure<K> for ClipRun {
    ghost worth = { λ x. frame_run (K.Frame.clips x) };

    ghost joined = { bridged };

    ghost neutral = { no_run };

    ghost laws = { clip_run_laws };

    fn of(frame: K) -> ClipRun {
        let run = u32::from(frame.clipped());
        ClipRun {
            count: 1,
            head: run,
            tail: run,
            best: run,
        }
    }

    fn none() -> ClipRun {
        ClipRun {
            count: 0,
            head: 0,
            tail: 0,
            best: 0,
        }
    }

    fn join(self, other: ClipRun) -> ClipRun {
        let count = self.count + other.count;
        if count > MOST {
            return ClipRun {
                count: MOST,
                head: MOST,
                tail: MOST,
                best: MOST,
            };
        }
        ClipRun {
            count,
            head: go_on(self.head, self.count, other.head),
            tail: go_on(other.tail, other.count, self.tail),
            best: self.best.max(other.best).max(self.tail + other.head),
        }
    }
}
