// Why a row was not read.
ghost use Rattle.std.specs.Prelude.{◌≡◌};

use stores::StoreFault;

// What the store told, and the first frame of the row that was not delivered.
#[derive(Clone, Copy, PartialEq, Eq, Debug)]
pub struct ReadFault {
    pub fault: StoreFault,
    pub at: usize,
}

// A stretch that is not gathered tells the store's fault alone.
impl From<ReadFault> for StoreFault {
    ghost from_gives = { λ failed told. told ≡ failed.fault };

    fn from(read: ReadFault) -> StoreFault {
        read.fault
    }
}
