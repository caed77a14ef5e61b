//! Places in a text.
ghost use Rattle.std.specs.Prelude.{◌≡◌, ◌≤◌, length};
ghost use Rattle.sng_config.specs.Places.{line_at, column_at, place_at};

/// Where something begins in a text: the line and the byte in it, both counted from 1.
#[derive(Clone, Copy, Debug, PartialEq, Eq)]
pub struct Place {
    pub line: usize,
    pub column: usize,
}

impl Place {
    /// The place of the byte at this index, which may be the end.
    pub fn of(text: &[u8], at: usize) -> Place
        requires { at ≤ length text.now }
        ensures { result ≡ place_at text.now at }
    {
        let before = &text[..at];
        Place {
            line: line_after(before),
            column: column_after(before),
        }
    }
}

/// The number of the line behind these bytes.
fn line_after(before: &[u8]) -> usize
    ensures { result ≡ line_at before.now (length before.now) }
{
    before.iter().filter(|byte| **byte == b'\n').count() + 1
}

/// The number of the next byte in its line.
fn column_after(before: &[u8]) -> usize
    ensures { result ≡ column_at before.now (length before.now) }
{
    before
        .iter()
        .rev()
        .take_while(|byte| **byte != b'\n')
        .count()
        + 1
}
