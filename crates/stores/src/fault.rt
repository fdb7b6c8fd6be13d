// The faults of a store: why a call was refused or failed, and which block it was about.
ghost use Rattle.std.specs.Prelude.{◌≡◌, Some, None};
ghost use Rattle.stores.specs.Faults.{code, fault, fault_text};

use std::fmt;

#[derive(Clone, Copy, PartialEq, Eq, Debug)]
pub enum StoreError {
    // The store is ailing: it failed before, and was not rearmed since.
    Ailing = 21,
    // The number holds no block.
    NoBlock = 22,
    // A part that is read reaches beyond the block.
    BeyondBlock = 23,
    // No frames, or more than a block may have.
    BadLength = 24,
    // No number is free.
    Full = 25,
    // The store failed at this call.
    Failed = 26,
}

impl StoreError {
    // The number that the error is told by.
    pub fn code(self) -> u8
        ensures { result ≡ code self }
    {
        self as u8
    }

    // The fault of a call about a block.
    pub fn at(self, number: usize) -> StoreFault
        ensures { result ≡ fault self (Some number) }
    {
        StoreFault {
            error: self,
            block: Some(number),
        }
    }
}

#[derive(Clone, Copy, PartialEq, Eq, Debug)]
pub struct StoreFault {
    pub error: StoreError,
    // The number of the block that the call was about; a put has none.
    pub block: Option<usize>,
}

// The fault of a put, which is about no block.
impl From<StoreError> for StoreFault {
    ghost from_gives = { λ error told. told ≡ fault error None };

    fn from(error: StoreError) -> StoreFault {
        StoreFault { error, block: None }
    }
}

impl fmt::Display for StoreFault {
    ghost output = { λ told. Some (fault_text told) };

    fn fmt<W: fmt::Write>(&self, f: &mut fmt::Formatter<W>) -> fmt::Result {
        let code = self.error.code();
        match self.block {
            Some(number) => write!(f, "refused by {code} at block {number}"),
            None => write!(f, "refused by {code}"),
        }
    }
}
