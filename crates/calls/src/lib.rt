// What can be asked of an editor, how it refuses, and what a list of calls comes to on plain lists of frames.
#![tactic(auto)]

ghost use Rattle.calls.specs.Law.{HistoryLaw};

mod call;
mod fault;
mod span;
mod step;

pub use call::Call;
pub use fault::{Fault, RowFault};
pub use span::Span;
pub use step::Step;

// An editor whose calls each move what it stands for as they say shows, after every list of calls, what the plain-list
// editor gives.
pub fn history_stands<F>()
    ensures { HistoryLaw F }
{}
