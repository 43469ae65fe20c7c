// A stored program sent out: its published text, byte by byte. A byte is written where there is room and counted in any case.
ghost use Rattle.std.specs.Prelude.{◌≡◌, [], ◌∷◌, ◌++◌, ◌+◌, ◌*◌, ◌≤◌, ◌<◌, leb, length};
ghost use Rattle.model.specs.Answers.{report, outcome};
ghost use Rattle.model.specs.Limits.{max_accepted};
ghost use Rattle.model.specs.Stored.{operand_of, target_of, line_at, lines_from};
ghost use Rattle.model.specs.Text.{newline};
ghost use Rattle.printing.specs.Writing.{Wrote, printable};
ghost use Rattle.published.specs.Published.{based, spell_published, spell_target_name, spaced, instruction_text, label_line, published_from, read_text};
ghost use Rattle.published.specs.Printing.{marked_by, Used, publish_outcome};

use crate::{LONGEST_LABEL, LONGEST_LINE};
use coding::{LITERALS, PUBLICS, SENSITIVES, TABLES, numbers_at};
use model::{Condition, LINE_WIDTH, MAX_ACCEPTED, MAX_LINES, Refusal};
use printing::{put, put_opcode, put_tagged};
use text::cut::{beyond, find};
use text::front_at;

// A flag for each line of an accepted program, and one for the end: whether it is a target.
const USED_ROOM: usize = MAX_ACCEPTED + 1;

// `!rN,k`.
fn put_based(out: &mut [u8], at: usize, b: u16, k: u16) -> usize
    requires { at + 13 ≤ printable }
    ensures { Wrote out.old out.new at result (based b k) 13 }
{
    let x = put(out, at, b'!');
    let y = put_tagged(out, x, b'r', b);
    put_tagged(out, y, b',', k)
}

// An operand that has a counterpart: up to the cells it is spelled as in our line form.
fn put_form(out: &mut [u8], at: usize, k: u16) -> usize
    requires { at + 13 ≤ printable }
    ensures { Wrote out.old out.new at result (spell_published (operand_of k)) 13 }
{
    match k {
        0..PUBLICS => printing::put_operand(out, at, k),
        PUBLICS..SENSITIVES => {
            let n = k - PUBLICS;
            put_based(out, at, n / 128, n % 128)
        },
        SENSITIVES..TABLES => {
            let n = k - SENSITIVES;
            put_based(out, at, n / 128, 128 + n % 128)
        },
        _ => at,
    }
}

// A space and an operand; nothing for an empty field.
fn put_operand(out: &mut [u8], at: usize, k: u16) -> usize
    requires { at + 14 ≤ printable }
    ensures { Wrote out.old out.new at result (spaced (spell_published (operand_of k))) 14 }
{
    if k < LITERALS || TABLES <= k {
        return at;
    }
    let a = put(out, at, b' ');
    put_form(out, a, k)
}

// A space and the name of a target; nothing for an empty field.
fn put_target(out: &mut [u8], at: usize, t: u16) -> usize
    requires { at + 7 ≤ printable }
    ensures { Wrote out.old out.new at result (spaced (spell_target_name (target_of t))) 7 }
{
    if t == 0 {
        return at;
    }
    let a = put(out, at, b' ');
    put_tagged(out, a, b'L', t - 1)
}

// The instruction of a stored line, and its newline. The mark is not spelled.
fn put_instruction(out: &mut [u8], at: usize, l: [u16; LINE_WIDTH]) -> usize
    requires { at + 53 ≤ printable }
    ensures { Wrote out.old out.new at result (instruction_text (line_at l 0) ++ (newline ∷ [])) 53 }
{
    let v = put_opcode(out, at, l[1]);
    let w = put_operand(out, v, l[2]);
    let x = put_operand(out, w, l[3]);
    let y = put_operand(out, x, l[4]);
    let z = put_target(out, y, l[5]);
    put(out, z, b'\n')
}

// The line `L5:` where line 5, or the end, is a target.
fn put_label(out: &mut [u8], at: usize, used: bool, i: u16) -> usize
    requires { at + 8 ≤ printable }
    ensures { Wrote out.old out.new at result (label_line used i) 8 }
{
    if used {
        let a = put_tagged(out, at, b'L', i);
        let b = put(out, a, b':');
        return put(out, b, b'\n');
    }
    at
}

// Tells a target by its number, 1 more than its line. None is told for 0, and none that an accepted program has not.
#[tactic(auto, unfolding(crate::specs::Printing::marked_by))]
fn mark(used: &mut [bool], t: usize)
    ensures { used.new ≡ marked_by t used.old }
{
    if 0 < t && t <= used.len() {
        used[t - 1] = true;
    }
}

// Tells the targets of the first n lines.
fn mark_targets(program: &[u16], n: usize, used: &mut [bool])
    requires { (length used.old ≡ max_accepted + 1) × Used [] used.old }
    ensures { Used (lines_from program.now 0 n) used.new }
{
    for i in 0..n {
        let l = numbers_at(program, i);
        mark(used, l[5] as usize);
    }
}

// The published text of the first n lines, as far as there is room, and its length.
fn print(program: &[u16], n: usize, used: &[bool], out: &mut [u8]) -> usize
    requires { (n ≤ max_accepted) × (max_accepted < length used.now) × Used (lines_from program.now 0 n) used.now }
    ensures { Wrote out.old out.new 0 result (published_from (lines_from program.now 0 n) 0 (lines_from program.now 0 n)) (61 * n + 8) }
{
    let mut at: usize = 0;
    for i in 0..n {
        let named = put_label(out, at, used[i], i as u16);
        at = put_instruction(out, named, numbers_at(program, i));
    }
    put_label(out, at, used[n], n as u16)
}

// Whether that text fits a room of so many bytes: there is room for as many of the longest lines, or it is printed where there is none.
fn fits(program: &[u16], n: usize, used: &[bool], room: usize) -> bool
    requires { (n ≤ max_accepted) × (max_accepted < length used.now) × Used (lines_from program.now 0 n) used.now }
    ensures { result ≡ leb (length (published_from (lines_from program.now 0 n) 0 (lines_from program.now 0 n))) room }
{
    LONGEST_LINE * n + LONGEST_LABEL <= room || print(program, n, used, &mut []) <= room
}

// The published text of a stored program at the front of a lent store. That it fits is known before a byte is written.
pub(crate) fn publish(program: &[u16], out: &mut [u8]) -> Result<usize, Refusal<usize>>
    ensures { outcome (report result) (out.new ∷ []) ≡ publish_outcome program.now out.old }
{
    marks::check(program)?;
    let n = program.len() / LINE_WIDTH;
    let mut used = [false; USED_ROOM];
    mark_targets(program, n, &mut used);
    if !fits(program, n, &used, out.len()) {
        return Err(Refusal {
            condition: Condition::NoRoom,
            line: 0,
        });
    }
    Ok(print(program, n, &used, out))
}

// What reading a text answers where there is room for every line; nothing is stored.
pub(crate) fn read_through(text: &[u8]) -> Result<u32, Refusal>
    ensures { report result ≡ (read_text text.now).answer }
{
    let mut rest = text;
    let mut n: usize = 0;
    while 0 < rest.len() {
        if MAX_LINES <= n {
            return Err(Refusal {
                condition: Condition::TooManyLines,
                line: n as u16,
            });
        }
        if let Err(condition) = front_at(rest, 0) {
            return Err(Refusal {
                condition,
                line: n as u16,
            });
        }
        rest = beyond(rest, find(rest, b'\n'));
        n += 1;
    }
    Ok(n as u32)
}
