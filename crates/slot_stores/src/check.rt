// The check of a slot: two sums over its bytes.
ghost use Rattle.std.specs.Prelude.{◌≡◌};
ghost use Rattle.slot_stores.specs.Checks.{grown, summed};

#[derive(Clone, Copy, Default)]
pub struct Check {
    pub first: u8,
    pub second: u8,
}

impl Check {
    // The check after one more byte.
    fn with(self, byte: u8) -> Check
        ensures { result ≡ grown self byte }
    {
        let first = (u16::from(self.first) + u16::from(byte)) % 255;
        let second = (u16::from(self.second) + first) % 255;
        Check {
            first: first as u8,
            second: second as u8,
        }
    }

    // The check after more bytes.
    pub(crate) fn over(self, bytes: &[u8]) -> Check
        ensures { result ≡ summed self bytes.now }
    {
        bytes.iter().fold(self, |sum, byte| sum.with(*byte))
    }
}
