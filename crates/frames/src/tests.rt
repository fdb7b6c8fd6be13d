// Frames at the ends of their ranges, written and read again; lines that are none; buffers that are too short.
use crate::frame::{Frame, TooShort};
use crate::mono::Mono;
use crate::stereo::Stereo;

const ENDS: [i16; 6] = [-32768, -32767, -2, 0, 1, 32767];

// A frame as it comes back from its bytes and from its line, in buffers of four and of eight.
fn comes_back<K: Frame>(frame: K, width: usize) -> Option<(K, K)> {
    let mut bytes = [0u8; 4];
    let mut line = [0u8; 8];
    frame.write_bytes(&mut bytes).ok()?;
    frame.write_line(&mut line).ok()?;
    Some((
        K::read_bytes(bytes.get(..width)?)?,
        K::read_line(line.get(..2 * width)?)?,
    ))
}

// Whether the frame that is made of each end comes back.
fn all_come_back<K: Frame + PartialEq, F: Fn(i16) -> K>(width: usize, make: F) -> bool
    requires { F.IsAlwaysCallable make }
{
    ENDS.iter().all(|end| {
        let frame = make(*end);
        comes_back(frame, width) == Some((frame, frame))
    })
}

#[test]
fn mono_comes_back(rt: HostRuntime) {
    assert!(rt; all_come_back(2, Mono::new));
}

#[test]
fn stereo_comes_back(rt: HostRuntime) {
    assert!(rt; all_come_back(4, |left| Stereo::new(left, 32767)));
}

#[test]
fn minus_two(rt: HostRuntime) {
    let mut bytes = [7u8; 3];
    assert!(rt; Mono::new(-2).write_bytes(&mut bytes) == Ok(()));
    assert_eq!(rt; bytes, [0xFE, 0xFF, 7]);
    let mut line = [b'.'; 5];
    assert!(rt; Mono::new(-2).write_line(&mut line) == Ok(()));
    assert!(rt; line == *b"FFFE.");
}

#[test]
fn no_frames(rt: HostRuntime) {
    for text in ["", "FFF", "FFFe", "+001", "FFFE0", "0001000G"] {
        assert_eq!(rt; Mono::read_line(text.as_bytes()), None);
        assert_eq!(rt; Stereo::read_line(text.as_bytes()), None);
    }
    assert!(rt; Mono::read_bytes(&[1]).is_none() && Stereo::read_bytes(&[1, 2, 3, 4, 5]).is_none());
}

#[test]
fn short_buffers(rt: HostRuntime) {
    let mut one = [9u8; 1];
    assert!(rt; Mono::new(5).write_bytes(&mut one) == Err(TooShort));
    assert_eq!(rt; one, [9]);
    let mut seven = [9u8; 7];
    assert!(rt; Stereo::new(5, 6).write_line(&mut seven) == Err(TooShort));
    assert_eq!(rt; seven, [9; 7]);
}

#[test]
fn facts(rt: HostRuntime) {
    let frame = Stereo::new(-32768, 3);
    assert_eq!(rt; (frame.low(), frame.high()), (-32768, 3));
    assert_eq!(rt; frame.energy(), 1073741833);
    assert!(rt; frame.clipped() && !Stereo::new(-32767, 32766).clipped());
}
