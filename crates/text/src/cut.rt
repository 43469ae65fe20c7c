// Bytes cut at a byte: the newline, the comma and the plus sign part a text.
ghost use Rattle.std.specs.Prelude.{◌≡◌, ◌+◌, ◌≤◌, length, drop};
ghost use Rattle.model.specs.Text.{up_to, count_of};

// How many bytes stand before the first c, or all of them.
pub fn find(s: &[u8], c: u8) -> usize
    ensures { (result ≡ length (up_to c s.now)) × (result ≤ length s.now) }
{
    for i in 0..s.len() {
        if s[i] == c {
            return i;
        }
    }
    s.len()
}

// What stands after the byte at n: nothing where there is none.
pub fn beyond(s: &[u8], n: usize) -> &[u8]
    ensures { result.now ≡ drop (n + 1) s.now }
{
    let len = s.len();
    if n < len { &s[n + 1..] } else { &s[len..] }
}

// How often c stands in s.
pub(crate) fn count(s: &[u8], c: u8) -> usize
    ensures { result ≡ count_of c s.now }
{
    s.iter().filter(|b| **b == c).count()
}
