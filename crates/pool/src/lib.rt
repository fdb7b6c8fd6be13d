// Counted blocks: a store with a count for each number, the measures of each block that was put, and
// new blocks that are put all together or not at all.
#![tactic(auto)]

mod account;
mod blocks;
mod counting;
mod cut;
mod fault;
mod pool;
mod putting;
mod starting;
#[cfg(test)]
mod tests;

pub use account::Account;
pub use cut::Cut;
pub use fault::PutFault;
pub use pool::Pool;
