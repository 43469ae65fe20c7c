// The lines of the published text: where a line's parts stand, its label, and its instruction.
ghost use Rattle.std.specs.Prelude.{◌≡◌, ◌≤◌, ◌<◌, length};
ghost use Rattle.published.specs.Reading.{uncommented, body_of, label_size, Placed};

use crate::parts::{after, blanks, word};
use text::cut::find;

// Where a line's parts stand: from its first part to a comment or its end, the place past its newline, and whether it has one.
#[derive(Clone, Copy)]
pub struct Place {
    pub start: usize,
    pub size: usize,
    pub next: usize,
    pub ended: bool,
}

// How many bytes stand before a comment and the line's end.
fn code_size(line: &[u8]) -> usize
    ensures { (result ≡ length (uncommented line.now)) × (result ≤ length line.now) }
{
    line.iter()
        .position(|b| matches!(*b, b';' | b'\n'))
        .unwrap_or(line.len())
}

// The line that begins at a place. Its end is sought behind what stands before a comment.
pub(crate) fn line_at(text: &[u8], at: usize) -> Place
    requires { at < length text.now }
    ensures { Placed text.now at result }
{
    let line = &text[at..];
    let code = code_size(line);
    let gap = blanks(&line[..code]);
    let end = code + find(&line[code..], b'\n');
    Place {
        start: at + gap,
        size: code - gap,
        next: at + end + 1,
        ended: end < line.len(),
    }
}

// The bytes of a label in front, with its colon; 0 where there is none.
pub(crate) fn label_size(s: &[u8]) -> usize
    ensures { (result ≡ label_size s.now) × (result ≤ length s.now) }
{
    let n = word(s);
    if 0 < n && s[n - 1] == b':' { n } else { 0 }
}

// What stands after a label of n bytes.
pub(crate) fn body(s: &[u8], n: usize) -> &[u8]
    requires { (n ≡ label_size s.now) × (n ≤ length s.now) }
    ensures { result.now ≡ body_of s.now }
{
    if n == 0 {
        return s;
    }
    after(s, n)
}
