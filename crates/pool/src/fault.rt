// Why new blocks were not put.
ghost use Rattle.std.specs.Prelude.{◌≡◌};
ghost use Rattle.pool.specs.declared.fault.PutFault.TheVariants.{NoMemory};

use std::alloc::AllocError;
use stores::StoreFault;

// Want of memory for the numbers of the new blocks, or what the store told.
#[derive(Clone, Copy, PartialEq, Eq, Debug)]
pub enum PutFault {
    NoMemory,
    Store(StoreFault),
}

impl From<AllocError> for PutFault {
    ghost from_gives = { λ _ fault. fault ≡ NoMemory };

    fn from(_error: AllocError) -> PutFault {
        PutFault::NoMemory
    }
}
