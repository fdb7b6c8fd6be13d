// What every kind of frame offers, and the laws that it shows.
ghost use Rattle.std.specs.Prelude.{◌≡◌, ℕ, ◌+◌, ◌^◌, ◌<◌, ◌≤◌, Bool, List, length, ℤ, if◌then◌else◌, Some, None, Option, nat_eq};
ghost use Rattle.std.specs.Int.Signed.{mag};
ghost use Rattle.std.specs.List.{AllByRecursion};
ghost use Rattle.frames.specs.Written.{Written};

// The buffer has no room for what was to be written, and is unchanged.
#[derive(Clone, Copy, PartialEq, Eq, Debug)]
pub struct TooShort;

// A kind of frame: every frame is so many bytes, and every list of so many bytes is one frame.
pub trait Frame: Copy + Drop {
    // How many bytes a frame has.
    ghost wide: { ℕ };

    // The bytes of a frame, and the frame of a list of bytes.
    ghost encoded: { Self → List ℕ };

    ghost decoded: { List ℕ → Self };

    // The line of text of a frame, without the line's end, and the frame of a line, if it is one's.
    ghost line: { Self → List ℕ };

    ghost parsed: { List ℕ → Option Self };

    // The smallest and the largest of a frame's numbers.
    ghost least: { Self → ℤ };

    ghost greatest: { Self → ℤ };

    // Both fit 32 bits: `mag z < 2 ^ 31` says that z lies from -2 ^ 31 to 2 ^ 31 - 1.
    // (Stands above the calls, and not with the laws, since the values of measures cite it.)
    ghost narrow: { (x : Self) → (mag (least x) < 2 ^ 31) × (mag (greatest x) < 2 ^ 31) };

    // The sum of the squares of a frame's numbers.
    ghost power: { Self → ℕ };

    // Whether one of a frame's numbers is at an end of its range.
    ghost clips: { Self → Bool };

    // How many bytes a frame has.
    fn width() -> usize
        ensures { result ≡ wide };

    // Writes the frame's bytes at the front of `out`.
    fn write_bytes(self, out: &mut [u8]) -> Result<(), TooShort>
        ensures { Written (encoded self) out.old out.new result };

    // The frame of `bytes`, or `None` where their number is not the width.
    fn read_bytes(bytes: &[u8]) -> Option<Self>
        ensures { result ≡ (if nat_eq (length bytes.now) wide then Some (decoded bytes.now) else None) };

    // Writes the frame's line at the front of `out`.
    fn write_line(self, out: &mut [u8]) -> Result<(), TooShort>
        ensures { Written (line self) out.old out.new result };

    // The frame whose line is `text`, or `None` where there is none.
    fn read_line(text: &[u8]) -> Option<Self>
        ensures { result ≡ parsed text.now };

    // The smallest of the frame's numbers.
    fn low(self) -> i32
        ensures { result ≡ least self };

    // The largest of the frame's numbers.
    fn high(self) -> i32
        ensures { result ≡ greatest self };

    // The sum of the squares of the frame's numbers.
    fn energy(self) -> u32
        ensures { result ≡ power self };

    // Whether one of the frame's numbers is at an end of its range.
    fn clipped(self) -> bool
        ensures { result ≡ clips self };

    ghost compact: { (1 ≤ wide) × (wide ≤ 256) };

    ghost sized: { (x : Self) → length (encoded x) ≡ wide };

    ghost bytes: { (x : Self) → AllByRecursion (λ b. b < 256) (encoded x) };

    ghost decodes: { (x : Self) → decoded (encoded x) ≡ x };

    ghost encodes: { (bs : List ℕ) → length bs ≡ wide → AllByRecursion (λ b. b < 256) bs → encoded (decoded bs) ≡ bs };

    ghost spans: { (x : Self) → length (line x) ≡ wide + wide };

    ghost parses: { (x : Self) → parsed (line x) ≡ Some x };

    ghost spells: { (text : List ℕ) (x : Self) → parsed text ≡ Some x → line x ≡ text };

    ghost bounded: { (x : Self) → power x ≤ 2 ^ 31 };
}
