// 'The published spelling' of document 02, request 08: a published text taken in, to our line form, and our line form sent out, to a
// published text. What both mean stands in specs/Published, what is shown of them in specs/Claims.

#![tactic(auto)]

ghost use Rattle.std.specs.Prelude.{◌≡◌, [], ◌∷◌};
ghost use Rattle.model.specs.Answers.{report, outcome};
ghost use Rattle.published.specs.Published.{take_in_outcome, send_out_check, send_out_outcome};
ghost use Rattle.published.specs.Printing.{Unread};

use model::{Condition, LINE_WIDTH, MAX_ACCEPTED, Refusal};

pub mod home;
mod instructions;
mod labels;
mod lines;
mod operands;
mod parts;
mod sending;
mod taking;

use labels::Labels;
use sending::{publish, read_through};
use taking::{collect, convert};

// The most bytes of a published line with its label, and of the label at the end.
pub const LONGEST_LINE: usize = 61;

pub const LONGEST_LABEL: usize = 8;

// The numbers of the longest accepted program.
const STORE_ROOM: usize = LINE_WIDTH * MAX_ACCEPTED;

// Takes a published text in: our line form at the front of a lent store. 24 or 25 at the lowest text line, then 17.
pub fn take_in(text: &[u8], out: &mut [u8]) -> Result<usize, Refusal<usize>>
    ensures { outcome (report result) (out.new ∷ []) ≡ take_in_outcome text.now out.old }
{
    let mut labels = Labels::new(text);
    let clean = collect(&mut labels);
    let mut store = [0u16; STORE_ROOM];
    let n = convert(&labels, clean, &mut store)?;
    let written = printing::write(&store[..LINE_WIDTH * n], out)?;
    Ok(written as usize)
}

// Sends our line form out: the published text at the front of a lent store. 1 to 7, then 9 to 16, then 17. Where there are more lines than an
// accepted program has, the rest is read without a store: a line that is wrong goes before 9.
pub fn send_out(text: &[u8], out: &mut [u8]) -> Result<usize, Refusal<usize>>
    ensures { outcome (report result) (out.new ∷ []) ≡ send_out_outcome text.now out.old }
{
    let mut store = [0u16; STORE_ROOM];
    let Ok(n) = text::read(text, &mut store) else {
        return refuse(text);
    };
    publish(&store[..LINE_WIDTH * (n as usize)], out)
}

// What a text is refused with that has a wrong line, or more lines than an accepted program.
fn refuse(text: &[u8]) -> Result<usize, Refusal<usize>>
    requires { Unread text.now }
    ensures { report result ≡ send_out_check text.now }
{
    read_through(text)?;
    Err(Refusal {
        condition: Condition::TooLong,
        line: 0,
    })
}
