// States of a project: five rows each, and what holding, dropping and changing them does to the counts of a pool.
#![tactic(auto)]

mod dropping;
mod entries;
mod holding;
mod placing;
mod state;
#[cfg(test)]
mod tests;

pub use dropping::{drop_oldest, keep_newest};
pub use holding::{hold_state, let_go_state};
pub use placing::place_row;
pub use state::State;
