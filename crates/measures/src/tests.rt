// The measures of the worked frames, whole and joined from two parts.
use crate::clip_run::ClipRun;
use crate::fold::measure_of;
use crate::meanings::{clip_run_of, energy_of, extent_of};
use crate::measure::Measure;
use frames::{Mono, Stereo};

#[test]
fn five_frames(rt: HostRuntime) {
    let frames = [
        Mono::new(3),
        Mono::new(-5),
        Mono::new(32767),
        Mono::new(-32768),
        Mono::new(32767),
    ];
    let extent = extent_of(&frames);
    assert_eq!(rt; (extent.low, extent.high), (-32768, 32767));
    assert_eq!(rt; energy_of(&frames).sum, 3221094436);
    assert_eq!(rt; clip_run_of(&frames).best, 3);
    let front: ClipRun = measure_of(&frames[0..3]);
    let back: ClipRun = measure_of(&frames[3..5]);
    assert_eq!(rt;
        <ClipRun as Measure<Mono>>::join(front, back),
        clip_run_of(&frames)
    );
}

#[test]
fn no_frames(rt: HostRuntime) {
    let extent = extent_of::<Mono>(&[]);
    assert_eq!(rt; (extent.low, extent.high), (2147483647, -2147483648));
    assert_eq!(rt; energy_of::<Mono>(&[]).sum, 0);
    assert_eq!(rt; clip_run_of::<Mono>(&[]).count, 0);
}

#[test]
fn either_side_clips(rt: HostRuntime) {
    let frames = [
        Stereo::new(32767, 0),
        Stereo::new(0, 32767),
        Stereo::new(1, -1),
    ];
    let run = clip_run_of(&frames);
    assert_eq!(rt; (run.count, run.head, run.tail, run.best), (3, 2, 0, 2));
}
