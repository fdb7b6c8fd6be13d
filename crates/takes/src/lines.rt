// The lines of a text, one after the other.
ghost use Rattle.std.specs.Prelude.{◌≡◌, ◌≤◌, length};
ghost use Rattle.std.specs.Iterator.{YieldsFirstRef, at_most};
ghost use Rattle.takes.specs.Lines.{first_line, lines_left};

const LINE_FEED: u8 = b'\n';

// Where the first line of a text ends: at its first line feed, or at the text's end.
fn line_end(text: &[u8]) -> usize
    ensures end { result ≡ length (first_line text.now) }
    ensures within { result ≤ length text.now }
{
    text.iter()
        .position(|byte| *byte == LINE_FEED)
        .unwrap_or(text.len())
}

// What is left of a text as its lines are taken, from the front on. The library's `split` would give
// an empty line behind the last feed.
#[derive(Drop)]
pub(crate) struct Lines<'a> {
    rest: &'a [u8],
}

impl<'a> Lines<'a> {
    pub(crate) fn of(text: &'a [u8]) -> Lines<'a>
        ensures { result.rest.now ≡ text.now }
    {
        Lines { rest: text }
    }
}

impl<'a> Iterator for Lines<'a> {
    type Item = &'a [u8];

    ghost next_gives = { YieldsFirstRef lines_left };

    ghost remaining = { λ s. at_most (length s.rest.now) };

    fn next(&mut self) -> Option<&'a [u8]> {
        let text = self.rest;
        if text.is_empty() {
            return None;
        }
        let end = line_end(text);
        self.rest = text.get(end + 1..).unwrap_or(&[]);
        Some(&text[..end])
    }
}
