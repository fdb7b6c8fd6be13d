// A span of frames: from its start up to, without, its end.
ghost use Rattle.std.specs.Prelude.{◌≡◌, ◌<◌, ◌≤◌, MatchResult};
ghost use Rattle.calls.specs.declared.fault.Fault.TheVariants.{ReversedSpan};

use crate::fault::Fault;

// The start is never after the end, in any span.
#[derive(Clone, Copy)]
pub struct Span {
    pub from: usize,
    pub to: usize,
    ghost forward: { from ≤ to },
}

impl Span {
    // The span between two positions; no span is made of reversed ones.
    pub fn new(from: usize, to: usize) -> Result<Span, Fault>
        ensures { MatchResult result (λ s. (s.from ≡ from) × (s.to ≡ to)) (λ f. (f ≡ ReversedSpan) × (to < from)) }
    {
        if from <= to {
            Ok(Span { from, to })
        } else {
            Err(Fault::ReversedSpan)
        }
    }
}
