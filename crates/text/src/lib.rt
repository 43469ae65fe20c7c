// 'Line form' of document 01, the reader of program text: any bytes to stored lines, six numbers to a line (conditions 1 to 8).

#![tactic(auto)]

ghost use Rattle.std.specs.Prelude.{◌≡◌, ◌+◌, ◌≤◌, [], ◌∷◌, length, drop};
ghost use Rattle.std.proofs.lemmas.List.Edits.{sets};
ghost use Rattle.model.specs.Answers.{report, outcome};
ghost use Rattle.model.specs.Text.{front_line, read_outcome};
ghost use Rattle.text.specs.Lines.{meaning, numbers_of, kept};

pub mod cut;
pub mod fields;
pub mod line;
mod scanning;

use crate::cut::{beyond, find};
use crate::line::front;
use crate::scanning::take;
use model::{Condition, LINE_WIDTH, MAX_LINES, Refusal};

// The six stored numbers of a line.
#[derive(Clone, Copy)]
pub struct Stored {
    pub mark: u16,
    pub opcode: u16,
    pub destination: u16,
    pub first: u16,
    pub second: u16,
    pub target: u16,
}

// The line at a position of a text.
#[tactic(auto, using(crate::proofs::LineLaws::front_none))]
pub fn front_at(text: &[u8], at: usize) -> Result<Stored, Condition>
    ensures { meaning result ≡ front_line (drop at text.now) }
{
    match text.get(at..) {
        Some(rest) => front(rest, find(rest, b'\n')),
        None => Err(Condition::NoNewline),
    }
}

// Stores the numbers of a line from an index on.
pub(crate) fn keep(store: &mut [u16], at: usize, l: Stored)
    requires { at + 6 ≤ length store.old }
    ensures { store.new ≡ sets store.old at (numbers_of l) }
{
    store[at] = l.mark;
    store[at + 1] = l.opcode;
    store[at + 2] = l.destination;
    store[at + 3] = l.first;
    store[at + 4] = l.second;
    store[at + 5] = l.target;
}

// Stores the numbers of a line as line n of a store, where there is room for it.
pub fn keep_at(store: &mut [u16], n: usize, l: Stored)
    ensures { store.new ≡ kept store.old n (numbers_of l) }
{
    if n < store.len() / LINE_WIDTH {
        keep(store, LINE_WIDTH * n, l);
    }
}

// Reads the lines of a text into a store. Each line is read from the front, and the rest of the text is handed on as a part. A correct
// line is taken in one pass; of any other `front` says which condition holds.
pub fn read(text: &[u8], store: &mut [u16]) -> Result<u32, Refusal>
    ensures { outcome (report result) (store.new ∷ []) ≡ read_outcome text.now store.old }
{
    let room = store.len() / LINE_WIDTH;
    let mut rest = text;
    let mut n: usize = 0;
    while 0 < rest.len() {
        if MAX_LINES <= n {
            return Err(Refusal {
                condition: Condition::TooManyLines,
                line: n as u16,
            });
        }
        if room <= n {
            return Err(Refusal {
                condition: Condition::StoreFull,
                line: n as u16,
            });
        }
        let bytes = take(rest, store, LINE_WIDTH * n);
        if 0 < bytes {
            rest = beyond(rest, bytes - 1);
            n += 1;
        } else {
            let end = find(rest, b'\n');
            let got = front(rest, end);
            let Ok(l) = got else {
                return Err(Refusal {
                    condition: got.unwrap_err(),
                    line: n as u16,
                });
            };
            keep(store, LINE_WIDTH * n, l);
            rest = beyond(rest, end);
            n += 1;
        }
    }
    Ok(n as u32)
}
