// The line reader of the two programs: a struct that refers to the caller's text and keeps the position reached. The functions over it are
// few and thin, and functions of a text and a position do the work.
ghost use Rattle.std.specs.Prelude.{◌≡◌, [], ◌∷◌, drop};
ghost use Rattle.model.specs.Answers.{report, outcome};
ghost use Rattle.model.specs.Text.{newline, past, read_outcome};
ghost use Rattle.lines.specs.Reading.{front_step, front_of, step_meaning, taken_meaning, left};

use model::{Condition, LINE_WIDTH, MAX_LINES, Refusal};
use text::cut::find;
use text::{Stored, front_at, keep_at};

// A line as it stands there: its numbers, or the condition that holds.
type Found = Result<Stored, Condition>;

// What stands at a position, nothing at the text's end, and the position after it.
#[derive(Clone, Copy)]
struct Taken {
    step: Option<Found>,
    at: usize,
}

// What stands at a position of a text.
fn step_at(text: &[u8], at: usize) -> Option<Found>
    ensures { step_meaning result ≡ front_step (drop at text.now) }
{
    if at < text.len() {
        Some(front_at(text, at))
    } else {
        None
    }
}

// The position after the line at a position: past its newline, or the text's end.
fn after(text: &[u8], at: usize) -> usize
    ensures { drop result text.now ≡ past newline (drop at text.now) }
{
    let len = text.len();
    if len <= at {
        return len;
    }
    let n = find(&text[at..], b'\n');
    if n < len - at { at + n + 1 } else { len }
}

// The reader. It is copied, not lent: the one past a line is a new one.
#[derive(Clone, Copy)]
pub(crate) struct Reader<'a> {
    text: &'a [u8],
    at: usize,
}

impl<'a> Reader<'a> {
    // A reader of a text that stands at a position.
    fn new(text: &'a [u8], at: usize) -> Reader<'a>
        ensures { (result.text ≡ text.entry) × (result.at ≡ at) }
    {
        Reader { text, at }
    }

    // What stands at the position reached.
    fn line(self) -> Option<Found>
        ensures { step_meaning result ≡ front_step (left self.entry) }
    {
        step_at(self.text, self.at)
    }

    // The reader past the line.
    fn moved(self) -> Reader<'a>
        ensures { (result.text ≡ self.entry.text) × (left result ≡ past newline (left self.entry)) }
    {
        Reader {
            text: self.text,
            at: after(self.text, self.at),
        }
    }
}

// What a reader finds at a position of a text, and the position that it moves on to. Who calls this has no reader in hand.
fn take_at(text: &[u8], at: usize) -> Taken
    ensures { taken_meaning text.now result ≡ front_of (drop at text.now) }
{
    let r = Reader::new(text, at);
    Taken {
        step: r.line(),
        at: r.moved().at,
    }
}

// Reads the lines of a text into a store, from position to position.
pub fn read_lines(text: &[u8], store: &mut [u16]) -> Result<u32, Refusal>
    ensures { outcome (report result) (store.new ∷ []) ≡ read_outcome text.now store.old }
{
    let room = store.len() / LINE_WIDTH;
    let mut at: usize = 0;
    let mut n: usize = 0;
    loop {
        let taken = take_at(text, at);
        let Some(got) = taken.step else {
            return Ok(n as u32);
        };
        if MAX_LINES <= n {
            return Err(Refusal {
                condition: Condition::TooManyLines,
                line: n as u16,
            });
        }
        if room <= n {
            return Err(Refusal {
                condition: Condition::StoreFull,
                line: n as u16,
            });
        }
        let Ok(l) = got else {
            return Err(Refusal {
                condition: got.unwrap_err(),
                line: n as u16,
            });
        };
        keep_at(store, n, l);
        at = taken.at;
        n += 1;
    }
}
