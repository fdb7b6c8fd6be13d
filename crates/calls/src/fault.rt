// Why a call of a project is refused, with the number that each refusal is told by.
ghost use Rattle.std.specs.Prelude.{◌≡◌};
ghost use Rattle.calls.specs.declared.fault.Fault.TheVariants.{NoMemory, Store};
ghost use Rattle.calls.specs.Codes.{code};

use std::alloc::AllocError;
use stores::StoreFault;

// What the store told, the row that was worked on, and the first frame that was not delivered; for a step, where its span
// or position starts.
#[derive(Clone, Copy, PartialEq, Eq, Debug)]
pub struct RowFault {
    pub fault: StoreFault,
    pub row: usize,
    pub frame: usize,
}

#[derive(Clone, Copy, PartialEq, Eq, Debug)]
pub enum Fault {
    // The project is started already.
    AlreadyStarted,
    // The store has a wrong size, a taken number or is ailing, at the start.
    UnfitStore,
    // The project is not started.
    NotStarted,
    // An edit is open.
    EditOpen,
    // No edit is open.
    NoEdit,
    // There is no such row or track.
    NoRow,
    // A span's start is after its end.
    ReversedSpan,
    // An empty span, buffer, list of frames or clip.
    NothingNamed,
    // More frames than a block may have.
    TooManyFrames,
    // Beyond the row's end.
    BeyondEnd,
    // No past state to undo to.
    NoPast,
    // No future state.
    NoFuture,
    // No past state to forget.
    NothingToForget,
    // The work buffer is shorter than a block may be.
    ShortWork,
    // The mended row would have more than 64 entries.
    TooManyEntries,
    // Fewer than four numbers are free.
    FewFree,
    // The store is ailing, or has turned ailing.
    Store(RowFault),
    // Memory is wanting.
    NoMemory,
}

impl Fault {
    // The number that the fault is told by.
    // A match: Rattle takes no numbers as discriminants where a variant holds data, and `From` would hold the same match.
    pub fn code(self) -> u8
        ensures { result ≡ code self }
    {
        match self {
            Fault::AlreadyStarted => 1,
            Fault::UnfitStore => 2,
            Fault::NotStarted => 3,
            Fault::EditOpen => 4,
            Fault::NoEdit => 5,
            Fault::NoRow => 6,
            Fault::ReversedSpan => 7,
            Fault::NothingNamed => 8,
            Fault::TooManyFrames => 9,
            Fault::BeyondEnd => 10,
            Fault::NoPast => 11,
            Fault::NoFuture => 12,
            Fault::NothingToForget => 13,
            Fault::ShortWork => 14,
            Fault::TooManyEntries => 15,
            Fault::FewFree => 16,
            Fault::Store(_) => 17,
            Fault::NoMemory => 99,
        }
    }
}

impl From<RowFault> for Fault {
    ghost from_gives = { λ row fault. fault ≡ Store row };

    fn from(row: RowFault) -> Fault {
        Fault::Store(row)
    }
}

impl From<AllocError> for Fault {
    ghost from_gives = { λ _ fault. fault ≡ NoMemory };

    fn from(_error: AllocError) -> Fault {
        Fault::NoMemory
    }
}
