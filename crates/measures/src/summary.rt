// The three measures of a stretch, kept together.
use crate::clip_run::ClipRun;
use crate::energy::Energy;
use crate::extent::Extent;

pub mod measure;

#[derive(Clone, Copy)]
pub struct Summary {
    pub extent: Extent,
    pub energy: Energy,
    pub run: ClipRun,
}
