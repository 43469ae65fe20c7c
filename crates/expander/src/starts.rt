// The starts of the lines' parts: added up once, then looked up (request 05).
ghost use Rattle.std.specs.Prelude.{◌≡◌, ◌+◌, ◌%◌, ◌≤◌};
ghost use Rattle.model.specs.Limits.{max_accepted};
ghost use Rattle.model.specs.Stored.{target_of, target_code, line_count, lines};
ghost use Rattle.model.specs.Expansion.{new_target};
ghost use Rattle.expander.specs.Starts.{looked_up, Starts};

use super::sizes;
use model::{LINE_WIDTH, Layout, MAX_ACCEPTED};

// How many starts there are at most: one for each line, and one for the end.
pub const STARTS: usize = MAX_ACCEPTED + 1;

// The starts of the lines and of the end, each the one before and that line's length: what is looked up in them is each line's and the end's.
pub fn fill_starts(layout: Layout, program: &[u16], starts: &mut [u16; STARTS])
    requires { line_count program.now ≤ max_accepted }
    ensures { Starts layout starts.new (lines program.now) }
{
    let count = program.len() / LINE_WIDTH;
    let mut sum = 0;
    starts[0] = 0;
    for i in 0..count {
        sum += sizes::size_at(layout, program, i);
        starts[i + 1] = sum;
    }
}

// The start of line t, 0 past the last.
fn start_at(starts: &[u16; STARTS], t: u16) -> u16
    ensures { result ≡ looked_up starts.now t }
{
    starts.get(t as usize).copied().unwrap_or(0)
}

// The number of a target whose line is replaced by the start of that line's part, as a store of 16 bits takes it.
pub fn new_target(starts: &[u16; STARTS], t: u16) -> u16
    ensures { result ≡ target_code (new_target (looked_up starts.now) (target_of t)) % 65536 }
{
    if t == 0 {
        return 0;
    }
    start_at(starts, t - 1).wrapping_add(1)
}
