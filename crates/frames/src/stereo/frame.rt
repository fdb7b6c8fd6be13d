// Stereo frames as a kind of frame: the left sample and then the right one, in bytes and in text.
ghost use Rattle.frames.specs.Stereos.{stereo_bytes, stereo_from, stereo_line, stereo_parsed, stereo_least, stereo_greatest, stereo_narrow, stereo_power, stereo_clips};
ghost use Rattle.frames.specs.SixteenBits.{mono_decodes, same_stereo, stereo_encodes, stereo_parses, stereo_spells, mono_bounded};
ghost use Rattle.std.proofs.Common.{arith, rules};

use crate::frame::{Frame, TooShort};
use crate::mono::Mono;
use crate::stereo::Stereo;

// Bytes and lines are halved alike in four functions: one over both would take the halves' call as a
// closure, and its contract would be longer than they are.
impl Frame for Stereo {
    ghost wide = { 4 };

    ghost encoded = { stereo_bytes };

    ghost decoded = { stereo_from };

    ghost line = { stereo_line };

    ghost parsed = { stereo_parsed };

    ghost least = { stereo_least };

    ghost greatest = { stereo_greatest };

    ghost narrow = { stereo_narrow };

    ghost power = { stereo_power };

    ghost clips = { stereo_clips };

    ghost compact = { Prim.search rules };

    ghost sized = { Prim.search rules };

    ghost bytes = { Prim.search rules };

    ghost decodes = { λ x. same_stereo _ x (mono_decodes x.left) (mono_decodes x.right) };

    ghost encodes = { λ bs l all. stereo_encodes bs l all };

    ghost spans = { Prim.search rules };

    ghost parses = { λ x. stereo_parses x };

    ghost spells = { λ text x e. stereo_spells text x e };

    ghost bounded = { λ x. omega (arith, mono_bounded x.left, mono_bounded x.right) };

    fn width() -> usize {
        4
    }

    fn write_bytes(self, out: &mut [u8]) -> Result<(), TooShort> {
        let bytes = out.first_chunk_mut::<4>().ok_or(TooShort)?;
        let (left, right) = bytes.split_at_mut(2);
        self.left.write_bytes(left)?;
        self.right.write_bytes(right)
    }

    fn read_bytes(bytes: &[u8]) -> Option<Stereo> {
        let (left, right) = bytes.as_array::<4>()?.split_at(2);
        Some(Stereo {
            left: Mono::read_bytes(left)?,
            right: Mono::read_bytes(right)?,
        })
    }

    fn write_line(self, out: &mut [u8]) -> Result<(), TooShort> {
        let line = out.first_chunk_mut::<8>().ok_or(TooShort)?;
        let (left, right) = line.split_at_mut(4);
        self.left.write_line(left)?;
        self.right.write_line(right)
    }

    fn read_line(text: &[u8]) -> Option<Stereo> {
        let (left, right) = text.as_array::<8>()?.split_at(4);
        Some(Stereo {
            left: Mono::read_line(left)?,
            right: Mono::read_line(right)?,
        })
    }

    fn low(self) -> i32 {
        self.left.low().min(self.right.low())
    }

    fn high(self) -> i32 {
        self.left.high().max(self.right.high())
    }

    fn energy(self) -> u32 {
        self.left.energy() + self.right.energy()
    }

    fn clipped(self) -> bool {
        self.left.clipped() || self.right.clipped()
    }
}
