// Mono frames as a kind of frame: two bytes, low byte first, and four digits.
ghost use Rattle.std.specs.Prelude.{◌^◌};
ghost use Rattle.frames.specs.Samples.{square, at_end};
ghost use Rattle.frames.specs.Monos.{mono_bytes, mono_from, mono_line, mono_parsed, mono_narrow};
ghost use Rattle.frames.specs.SixteenBits.{mono_decodes, mono_encodes, mono_parses, mono_spells, mono_bounded};
ghost use Rattle.std.proofs.Common.{arith, rules};

use crate::frame::{Frame, TooShort};
use crate::hex::{read_hex, write_hex};
use crate::mono::Mono;

impl Frame for Mono {
    ghost wide = { 2 };

    ghost encoded = { mono_bytes };

    ghost decoded = { mono_from };

    ghost line = { mono_line };

    ghost parsed = { mono_parsed };

    ghost least = { λ x. x.value };

    ghost greatest = { λ x. x.value };

    ghost narrow = { λ x. (mono_narrow x, mono_narrow x) };

    ghost power = { λ x. square x.value };

    ghost clips = { λ x. at_end (2 ^ 15) x.value };

    ghost compact = { Prim.search rules };

    ghost sized = { Prim.search rules };

    ghost bytes = { Prim.search rules };

    ghost decodes = { λ x. mono_decodes x };

    ghost encodes = { λ bs l all. mono_encodes bs l all };

    ghost spans = { Prim.search rules };

    ghost parses = { λ x. mono_parses x };

    ghost spells = { λ text x e. mono_spells text x e };

    ghost bounded = { λ x. omega (arith, mono_bounded x) };

    fn width() -> usize {
        2
    }

    fn write_bytes(self, out: &mut [u8]) -> Result<(), TooShort> {
        let bytes = out.first_chunk_mut::<2>().ok_or(TooShort)?;
        *bytes = self.value.to_le_bytes();
        Ok(())
    }

    fn read_bytes(bytes: &[u8]) -> Option<Mono> {
        let bytes = bytes.as_array::<2>()?;
        Some(Mono::new(i16::from_le_bytes(*bytes)))
    }

    fn write_line(self, out: &mut [u8]) -> Result<(), TooShort> {
        let line = out.first_chunk_mut::<4>().ok_or(TooShort)?;
        write_hex(u32::from(self.value.cast_unsigned()), line);
        Ok(())
    }

    fn read_line(text: &[u8]) -> Option<Mono> {
        let bits = read_hex(text.as_array::<4>()?)?;
        Some(Mono::new((bits as u16).cast_signed()))
    }

    fn low(self) -> i32 {
        i32::from(self.value)
    }

    fn high(self) -> i32 {
        self.low()
    }

    fn energy(self) -> u32 {
        let size = u32::from(self.value.unsigned_abs());
        size * size
    }

    fn clipped(self) -> bool {
        self.value == i16::MIN || self.value == i16::MAX
    }
}
