// 'Code, tables, macros' of document 01, the macros: the expansion (23, what the mark check refuses, 17) of stored programs.
// The crate `pieces` writes the macros; sizes.rt has how long they are, starts.rt the starts of the lines' parts, writing.rt the parts in
// a lent store.

#![tactic(auto)]

ghost use Rattle.std.specs.Prelude.{◌≡◌, [], ◌∷◌};
ghost use Rattle.model.specs.Answers.{report, outcome};
ghost use Rattle.model.specs.Layouts.{Known};
ghost use Rattle.model.specs.Stored.{lines};
ghost use Rattle.model.specs.Marks.{Accepted};
ghost use Rattle.model.specs.Expansion.{expand_outcome, expand as expansionOf, written};

use model::{Condition, LINE_WIDTH, Layout, Refusal};
use starts::STARTS;

mod sizes;
mod starts;
mod writing;

// The expansion of an accepted program: its count of lines, or 17 with nothing touched.
fn write_expansion(layout: Layout, program: &[u16], out: &mut [u16]) -> Result<u32, Refusal>
    requires { Known layout × Accepted (lines program.now) }
    ensures { outcome (report result) (out.new ∷ []) ≡ written (expansionOf layout (lines program.now)) out.old }
{
    let count = program.len() / LINE_WIDTH;
    let mut starts = [0u16; STARTS];
    starts::fill_starts(layout, program, &mut starts);
    let total = starts[count];
    if out.len() / LINE_WIDTH < (total as usize) {
        return Err(Refusal {
            condition: Condition::NoRoom,
            line: 0,
        });
    }
    writing::put_parts(layout, program, &starts, out);
    Ok(total as u32)
}

// The expansion of a stored program in the layout of that position and spacing, at the front of a lent store: its count of lines, or 23, the
// mark check's refusal, then 17. A refusal leaves the store untouched.
pub fn expand(position: u8, spacing: u8, program: &[u16], out: &mut [u16]) -> Result<u32, Refusal>
    ensures { outcome (report result) (out.new ∷ []) ≡ expand_outcome position spacing program.now out.old }
{
    let layout = coding::layout_named(position, spacing)?;
    marks::check(program)?;
    write_expansion(layout, program, out)
}
