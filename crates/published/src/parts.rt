// The parts of a line: blanks skipped, and what stands between them.
ghost use Rattle.std.specs.Prelude.{◌≡◌, ◌≤◌, length, take, drop};
ghost use Rattle.published.specs.Published.{is_blank};
ghost use Rattle.published.specs.Reading.{trimmed, word_of};

// Most bytes are above both blanks: told at once, that spares a test of each. As one `matches!`, a listing of jumps takes 3% more instructions.
fn is_blank(b: u8) -> bool
    ensures { result ≡ is_blank b }
{
    if b' ' < b {
        return false;
    }
    (b == b' ') | (b == b'\t')
}

// How many blanks stand in front.
pub(crate) fn blanks(s: &[u8]) -> usize
    ensures { (drop result s.now ≡ trimmed s.now) × (result ≤ length s.now) }
{
    s.iter().position(|b| !is_blank(*b)).unwrap_or(s.len())
}

// How many bytes stand before the first blank.
pub(crate) fn word(s: &[u8]) -> usize
    ensures { (result ≡ length (word_of s.now)) × (result ≤ length s.now) }
{
    s.iter().position(|b| is_blank(*b)).unwrap_or(s.len())
}

// What follows the first n bytes and blanks.
pub(crate) fn after(s: &[u8], n: usize) -> &[u8]
    requires { n ≤ length s.now }
    ensures { result.now ≡ trimmed (drop n s.now) }
{
    let t = &s[n..];
    let k = blanks(t);
    &t[k..]
}

// n bytes of a text from a place on, as far as there are so many.
pub(crate) fn part(text: &[u8], at: usize, n: usize) -> &[u8]
    ensures { result.now ≡ take n (drop at text.now) }
{
    let rest = &text[at.min(text.len())..];
    &rest[..n.min(rest.len())]
}
