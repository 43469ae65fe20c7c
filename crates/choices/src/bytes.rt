// Sets of values as bytes, 17 for each place: their count, the values, the rest ignored. Where there is no place, past the last one, 0 is
// the one value and nothing is written. The count stays in front of the values, since the sets are lent by C in that form.
ghost use Rattle.std.specs.Prelude.{◌≡◌, ◌<◌, ◌≤◌, ltb, length, get_or, set, take};
ghost use Rattle.sets.specs.Walk.{set_width, max_values, listed, lists_of, values, several, member, insert};

use model::STATE_SIZE;
use sets::{MAX_VALUES, SET_WIDTH, SETS_SIZE};

// A set that is being gathered has room for one value more, so that too many are told. It has its count in front as well, so that it is
// copied to its place as it stands.
pub const ROOM: usize = SET_WIDTH + 1;

// How many values a place may have.
pub fn size_of(sets: &[u8; SETS_SIZE], i: usize) -> usize
    ensures { result ≡ length (values (lists_of sets.now) i) }
{
    if STATE_SIZE <= i {
        return 1;
    }
    MAX_VALUES.min(sets[SET_WIDTH * i] as usize)
}

// Value j of a place.
pub fn value_of(sets: &[u8; SETS_SIZE], i: usize, j: usize) -> u8
    requires { j < length (values (lists_of sets.now) i) }
    ensures { result ≡ get_or (values (lists_of sets.now) i) j 0 }
{
    if STATE_SIZE <= i {
        return 0;
    }
    sets[SET_WIDTH * i + 1 + j]
}

// Whether a place may have several values.
pub fn is_several(sets: &[u8; SETS_SIZE], i: usize) -> bool
    ensures { result ≡ several (values (lists_of sets.now) i) }
{
    1 < size_of(sets, i)
}

// Writes the bytes of a place's set.
pub fn put_set(sets: &mut [u8; SETS_SIZE], i: usize, new: &[u8])
    requires { set_width ≤ length new.now }
    ensures { lists_of sets.new ≡ set (lists_of sets.old) i (listed (take set_width new.now)) }
{
    if STATE_SIZE <= i {
        return;
    }
    let at = SET_WIDTH * i;
    sets[at..at + SET_WIDTH].copy_from_slice(&new[..SET_WIDTH]);
}

// Whether x is among the values that are being gathered.
// An index loop: with `contains` the walk over an expansion takes 1.23 times plain C where 1.2 is the goal, with a loop over the slice that of
// 24,576 choices without a leak 1.26; with this they take 1.17 and 0.99.
fn is_member(found: &[u8; ROOM], x: u8) -> bool
    requires { get_or found.now 0 0 ≤ set_width }
    ensures { result ≡ member x (listed found.now) }
{
    for j in 0..found[0] as usize {
        if found[1 + j] == x {
            return true;
        }
    }
    false
}

// A value more, behind the others, where it is new.
pub fn note(found: &mut [u8; ROOM], x: u8)
    requires { get_or found.old 0 0 ≤ max_values }
    ensures { (listed found.new ≡ insert (listed found.old) x) × (get_or found.new 0 0 ≤ set_width) }
{
    if is_member(found, x) {
        return;
    }
    let n = found[0];
    found[1 + (n as usize)] = x;
    found[0] = n + 1;
}

// Whether more values were gathered than a set may have.
pub fn is_overfull(found: &[u8; ROOM]) -> bool
    requires { get_or found.now 0 0 ≤ set_width }
    ensures { result ≡ ltb max_values (length (listed found.now)) }
{
    MAX_VALUES < (found[0] as usize)
}
