// What the programs read and print line by line: lines of numbers parted by commas, and in reader.rt the line reader. As in the
// crate `printing`, a byte is written where there is room and counted in any case.

#![tactic(auto)]

ghost use Rattle.std.specs.Prelude.{◌≡◌, [], ◌∷◌, ◌+◌, ◌*◌, ◌/◌, ◌<◌, ◌≤◌, length};
ghost use Rattle.model.specs.Answers.{report, outcome};
ghost use Rattle.model.specs.Limits.{row_width};
ghost use Rattle.model.specs.Programs.{numbers_text, or_refusal};
ghost use Rattle.printing.specs.Writing.{Wrote, printable};
ghost use Rattle.lines.specs.Printing.{rows_text, lines_text};
ghost use Rattle.model.specs.Text.{fitted};

use model::{Condition, ROW_WIDTH, Refusal};
use printing::{put, put_number, put_tagged};

pub mod reader;
pub mod shared;

// The bytes of a word.
fn put_word(out: &mut [u8], at: usize, word: &[u8]) -> usize
    requires { at + length word.now ≤ printable }
    ensures { Wrote out.old out.new at result word.now (length word.now) }
{
    let mut next = at;
    for &b in word {
        next = put(out, next, b);
    }
    next
}

// Numbers parted by commas, and a newline.
fn put_numbers(out: &mut [u8], at: usize, numbers: &[u16]) -> usize
    requires { (0 < length numbers.now) × (at + 6 * length numbers.now ≤ printable) }
    ensures { Wrote out.old out.new at result (numbers_text numbers.now) (6 * length numbers.now) }
{
    let mut next = put_number(out, at, numbers[0]);
    for i in 1..numbers.len() {
        next = put_tagged(out, next, b',', numbers[i]);
    }
    put(out, next, b'\n')
}

// The rows of a trace store, each a line.
fn put_rows(out: &mut [u8], at: usize, rows: &[u16]) -> usize
    requires { at + 6 * length rows.now ≤ printable }
    ensures { Wrote out.old out.new at result (rows_text (length rows.now / row_width) rows.now) (6 * length rows.now) }
{
    let n = rows.len() / ROW_WIDTH;
    let mut next = at;
    for k in 0..n {
        let from = ROW_WIDTH * k;
        let end = from + ROW_WIDTH;
        next = put_numbers(out, next, &rows[from..end]);
    }
    next
}

// Rows, and a last line of a word and numbers.
fn put_lines(out: &mut [u8], rows: &[u16], word: &[u8], last: &[u16]) -> usize
    requires { (0 < length last.now) × (6 * length rows.now + length word.now + 6 * length last.now ≤ printable) }
    ensures { Wrote out.old out.new 0 result (lines_text rows.now word.now last.now) printable }
{
    let a = put_rows(out, 0, rows);
    let b = put_word(out, a, word);
    put_numbers(out, b, last)
}

// The same as the text of an answer: 17 with nothing touched where there is no room. Printed into an empty part, nothing is touched
// and the text's length is known.
pub fn write_lines(rows: &[u16], word: &[u8], last: &[u16], out: &mut [u8]) -> Result<u32, Refusal>
    requires { (0 < length last.now) × (6 * length rows.now + length word.now + 6 * length last.now ≤ printable) }
    ensures { outcome (report result) (out.new ∷ []) ≡ fitted (lines_text rows.now word.now last.now) out.old }
{
    let size = put_lines(&mut out[..0], rows, word, last);
    if out.len() < size {
        return Err(Refusal {
            condition: Condition::NoRoom,
            line: 0,
        });
    }
    let written = put_lines(out, rows, word, last);
    Ok(written as u32)
}

// Writes the line of a refusal; nothing for another answer.
pub fn write_refusal(answer: Result<u32, Refusal>, out: &mut [u8]) -> Result<u32, Refusal>
    ensures { outcome (report result) (out.new ∷ []) ≡ fitted (or_refusal (report answer) []) out.old }
{
    match answer {
        Ok(_) => Ok(0),
        Err(refusal) => {
            let last = [u8::from(refusal.condition) as u16, refusal.line];
            write_lines(&[], b"refused,", &last, out)
        }
    }
}
