// A slot of an image: its header, and its frames.
ghost use Rattle.std.specs.Prelude.{◌≡◌, ◌+◌, ◌*◌, [], ◌∷◌, ◌++◌, length};
ghost use Rattle.std.specs.List.{flat_map};
ghost use Rattle.slot_stores.specs.Image.{four, length_in_slot, decoded, written};

use crate::check::Check;
use frames::Frame;

// A length in four bytes, low byte first.
pub(crate) fn four(n: usize) -> [u8; 4]
    ensures { result ≡ four n }
{
    let [a, b, c, d, ..] = n.to_le_bytes();
    [a, b, c, d]
}

// The first six bytes of a slot.
pub(crate) fn header(n: usize, check: Check) -> [u8; 6]
    ensures { result ≡ four n ++ (check.first ∷ check.second ∷ []) }
{
    let [a, b, c, d] = four(n);
    [a, b, c, d, check.first, check.second]
}

// The length of the block in a slot, 0 where there is none, as the slot itself tells it.
pub(crate) fn block_length(slot: &[u8], limit: usize) -> usize
    ensures { result ≡ length_in_slot limit slot.now }
{
    let [a, b, c, d, _first, _second, ..] = slot else {
        return 0;
    };
    let len = u32::from_le_bytes([*a, *b, *c, *d]) as usize;
    if len <= limit { len } else { 0 }
}

// Writes the bytes of frames, one after the other.
pub(crate) fn write_frames<K: Frame>(body: &mut [u8], frames: &[K])
    requires { length body.old ≡ length frames.now * K.Frame.wide }
    ensures { body.new ≡ flat_map K.Frame.encoded frames.now }
{
    let width = K::width();
    // By number: where a loop splits the body again and again, as was tried, no proof says what it ends as.
    for (i, frame) in frames.iter().enumerate() {
        let at = i * width;
        let _ = frame.write_bytes(&mut body[at..at + width]);
    }
}

// Fills the buffer with the frames that the bytes hold, one after the other.
pub(crate) fn read_frames<K: Frame>(bytes: &[u8], buffer: &mut [K])
    requires { length bytes.now ≡ length buffer.old * K.Frame.wide }
    ensures { buffer.new ≡ decoded K.Frame.wide K.Frame.decoded (length buffer.old) bytes.now }
{
    let width = K::width();
    // The rest is split by hand: a proof does not learn what is written through a chain of `iter_mut`.
    let mut rest = bytes;
    for place in buffer.iter_mut() {
        let (part, after) = rest.split_at(width);
        *place = K::read_bytes(part).unwrap();
        rest = after;
    }
}

// Writes the length, the check and the frames of a block.
pub(crate) fn write_slot<K: Frame>(slot: &mut [u8], frames: &[K])
    requires { length slot.old ≡ 6 + length frames.now * K.Frame.wide }
    ensures { slot.new ≡ written K.Frame.encoded frames.now }
{
    let (head, body) = slot.split_at_mut(6);
    write_frames(body, frames);
    let check = Check::default().over(&four(frames.len())).over(body);
    head.copy_from_slice(&header(frames.len(), check));
}
