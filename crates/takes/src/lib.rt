// A take as text: one frame a line, each line ended by a line feed that the last may lack.
#![tactic(auto)]

mod kind;
mod lines;
mod take;
#[cfg(test)]
mod tests;

pub use kind::{Kind, kind_of};
pub use take::Take;
pub use take::reading::read_take;
