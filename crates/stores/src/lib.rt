// Block stores: what every store promises of its blocks, the faults it answers, and a store that
// fails on purpose.
#![tactic(auto)]

mod fault;
mod store;
mod tripping;

pub use fault::{StoreError, StoreFault};
pub use store::Store;
pub use tripping::Tripping;
