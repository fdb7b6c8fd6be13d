// Takes with headings, bad lines, empty lines and no last line feed.
use crate::kind::{Kind, kind_of};
use crate::take::Take;
use crate::take::reading::read_take;
use frames::Mono;
use std::test::Fail;

#[test]
fn kinds(rt: HostRuntime) {
    assert_eq!(rt; kind_of(b"take one\n"), Some(Kind::Stereo));
    assert_eq!(rt; kind_of(b"take\n0001"), Some(Kind::Mono));
    assert_eq!(rt; kind_of(b"a\n\n00010002\n0001\n"), Some(Kind::Stereo));
    assert_eq!(rt; kind_of(b""), None);
}

#[test]
fn frames_and_other_lines(rt: HostRuntime) -> Result<(), Fail> {
    let take: Take<Mono> = read_take(rt.alloc(), b"FFFE\n\n001\n0003\r\n0005")?;
    assert!(rt; take.frames.as_slice() == [Mono::new(-2), Mono::new(5)].as_slice());
    assert!(rt; take.unread.as_slice() == [2, 3, 4].as_slice());
    Ok(())
}
