// Parts written into a lent store, one line of the program after the other.
ghost use Rattle.std.specs.Prelude.{◌≡◌, ◌+◌, ◌*◌, ◌≤◌, length};
ghost use Rattle.model.specs.Stored.{line_count, line_at, lines};
ghost use Rattle.model.specs.Expansion.{part, size, start, joined};
ghost use Rattle.expander.specs.Starts.{looked_up};
ghost use Rattle.pieces.specs.Writes.{put, Wrote};

use super::starts;
use super::starts::STARTS;
use model::{LINE_WIDTH, Layout, Mark};

// The part of line i from line `at` on: an unmarked line itself, a marked one its macro. Handed back is the line past it. The layout, the program and
// its starts go through two functions only: a struct of them would be made at one call and taken apart here.
fn put_part(
    out: &mut [u16],
    at: usize,
    layout: Layout,
    program: &[u16],
    i: usize,
    starts: &[u16; STARTS],
) -> usize
    requires { 6 * (at + size layout (line_at program.now i)) ≤ length out.old }
    ensures { Wrote out.old out.new at result (part layout (looked_up starts.now) (line_at program.now i)) }
{
    let [mark, o, d, a, b, target] = coding::numbers_at(program, i);
    let o = coding::opcode_of(o);
    if mark == 0 {
        let start = starts::new_target(starts, target);
        return pieces::put_line(out, at, Mark::Unmarked, o, d, a, b, start);
    }
    let (a, b) = (pieces::coded(layout, a), pieces::coded(layout, b));
    pieces::put_macro(out, at, layout, o, d, a, b)
}

// The parts of all lines, from the front on.
pub fn put_parts(layout: Layout, program: &[u16], starts: &[u16; STARTS], out: &mut [u16])
    requires { 6 * start layout (lines program.now) (line_count program.now) ≤ length out.old }
    ensures { out.new ≡ put out.old 0 (joined layout (looked_up starts.now) (lines program.now)) }
{
    let count = program.len() / LINE_WIDTH;
    let mut at = 0;
    for i in 0..count {
        at = put_part(out, at, layout, program, i, starts);
    }
}
