// Measures of sound: a value of each frame, joined in order.
#![tactic(auto)]

mod clip_run;
mod energy;
mod extent;
mod fold;
mod meanings;
mod measure;
mod summary;
#[cfg(test)]
mod tests;

pub use clip_run::ClipRun;
pub use energy::Energy;
pub use extent::Extent;
pub use fold::measure_of;
pub use meanings::{clip_run_of, energy_of, extent_of};
pub use measure::Measure;
pub use summary::Summary;
