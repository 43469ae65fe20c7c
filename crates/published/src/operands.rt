// An operand of the published spelling: read to its stored number, or found to have no counterpart.
ghost use Rattle.std.specs.Prelude.{◌≡◌, ◌<◌};
ghost use Rattle.text.specs.Fields.{found};
ghost use Rattle.published.specs.Published.{published_number};
ghost use Rattle.published.specs.Reading.{read_based, pointed_at};

use coding::{PUBLICS, SENSITIVES};
use text::cut::{beyond, find};
use text::fields::{direct, number};

// The cell that a base and an offset below 256 name.
fn pointed(b: u16, k: u16) -> Option<u16>
    requires { (b < 32) × (k < 256) }
    ensures { result ≡ pointed_at b k }
{
    if k < 128 {
        return Some(PUBLICS + (128 * b + k));
    }
    Some(SENSITIVES + (128 * b + (k - 128)))
}

// `rN,k`, or `rN` alone.
fn based(s: &[u8]) -> Option<u16>
    ensures { result ≡ read_based s.now }
{
    let [b'r', rest @ ..] = s else {
        return None;
    };
    let n = find(rest, b',');
    let b = number(&rest[..n], 32)?;
    if n == rest.len() {
        return pointed(b, 0);
    }
    let k = number(beyond(rest, n), 256)?;
    pointed(b, k)
}

// An operand; no part is 0. All but `!` is read as in our line form.
pub(crate) fn operand(s: &[u8]) -> Option<u16>
    ensures { found result ≡ published_number s.now }
{
    let [head, rest @ ..] = s else {
        return Some(0);
    };
    if *head == b'!' {
        return based(rest);
    }
    // Taken apart, so that no answer is put together in memory: a listing of jumps, whose fields are empty, would take a sixth longer.
    let Some(k) = direct(*head, rest) else {
        return None;
    };
    Some(k)
}
