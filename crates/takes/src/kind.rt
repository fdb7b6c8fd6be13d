// Which kind of frame a take has, told by the length of its lines.
ghost use Rattle.std.specs.Prelude.{◌≡◌, Some};
ghost use Rattle.takes.specs.Lines.{lines};
ghost use Rattle.takes.specs.Kinds.{told_by, name};

use crate::lines::Lines;
use std::fmt;

#[derive(Clone, Copy, PartialEq, Eq, Debug)]
pub enum Kind {
    Mono,
    Stereo,
}

impl fmt::Display for Kind {
    ghost output = { λ kind. Some (name kind) };

    fn fmt<W: fmt::Write>(&self, f: &mut fmt::Formatter<W>) -> fmt::Result {
        f.write_str(match self {
            Kind::Mono => "mono",
            Kind::Stereo => "stereo",
        })
    }
}

// The kind that the first line of four or of eight bytes tells, or `None` where there is no such line.
pub fn kind_of(text: &[u8]) -> Option<Kind>
    ensures { result ≡ told_by (lines text.now) }
{
    for line in Lines::of(text) {
        match line.len() {
            4 => return Some(Kind::Mono),
            8 => return Some(Kind::Stereo),
            _ => {}
        }
    }
    None
}
