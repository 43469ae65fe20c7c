// A correct line read in one pass. A scan answers one number, 65,536 times the position where it ended and the stored number that it found,
// or 0, and no Option: a number is handed on in a register, an enum through memory. What was found is spelled there, so that scans that meet
// are a line.
ghost use Rattle.std.specs.Prelude.{◌≡◌, ◌∷◌, ◌++◌, ◌+◌, ◌≤◌, ◌<◌, length, drop};
ghost use Rattle.model.specs.Limits.{line_reach};
ghost use Rattle.model.specs.Stored.{operand_of};
ghost use Rattle.model.specs.Text.{comma, decimal, spell_operand};
ghost use Rattle.text.specs.Scanning.{position_of, number_of, Scanned, Numbered, Based, Ended, Completed, Took};

use crate::fields::{LINE_NUMBERS, mark, opcode};
use crate::line::LINE_REACH;
use crate::{Stored, keep};
use coding::{CELLS, LITERALS, PUBLICS, REGISTERS, SENSITIVES, TABLES, fault_of};

// A scan's answer.
fn answer(position: usize, number: u16) -> u32
    requires { position ≤ line_reach }
    ensures { (position_of result ≡ position) × (number_of result ≡ number) }
{
    65536 * (position as u32) + (number as u32)
}

// Where a scan ended.
fn position(scan: u32) -> usize
    ensures { result ≡ position_of scan }
{
    (scan / 65536) as usize
}

// What it found.
fn found(scan: u32) -> u16
    ensures { result ≡ number_of scan }
{
    (scan % 65536) as u16
}

// A number below n that begins with the digits of v, and more.
fn digits(s: &[u8], at: usize, v: u16, n: u16, more: u16) -> u32
    requires { (length s.now ≤ line_reach) × ((at ≤ length s.now) × ((0 < v) × ((v < n) × (n + more < 65536)))) }
    ensures { Numbered (decimal v ++ drop at s.now) n more s.now result }
{
    let mut k: u16 = v;
    for i in at..s.len() {
        let b = s[i];
        if b < b'0' || b'9' < b {
            return answer(i, more + k);
        }
        let next = 10 * (k as u32) + ((b - b'0') as u32);
        if (n as u32) <= next {
            return 0;
        }
        k = next as u16;
    }
    answer(s.len(), more + k)
}

// A number below n, in decimal with no leading zero, and more.
fn number(s: &[u8], at: usize, n: u16, more: u16) -> u32
    requires { (length s.now ≤ line_reach) × ((10 ≤ n) × (n + more < 65536)) }
    ensures { Numbered (drop at s.now) n more s.now result }
{
    match s.get(at) {
        Some(b'0') => answer(at + 1, more),
        Some(b @ b'1'..=b'9') => digits(s, at + 1, (*b - b'0') as u16, n, more),
        _ => 0,
    }
}

// `rN+k` with k below w, and more.
fn indirect(s: &[u8], at: usize, w: u16, more: u16) -> u32
    requires { (length s.now ≤ line_reach) × ((10 ≤ w) × ((w ≤ 256) × (more < 20000))) }
    ensures { Based w more s.now at result }
{
    let Some(b'r') = s.get(at) else {
        return 0;
    };
    let base = number(s, at + 1, 32, 0);
    if base == 0 {
        return 0;
    }
    let plus = position(base);
    let Some(b'+') = s.get(plus) else {
        return 0;
    };
    number(s, plus + 1, w, more + w * found(base))
}

// An operand; where none begins, an empty field.
fn operand(s: &[u8], at: usize) -> u32
    requires { length s.now ≤ line_reach }
    ensures { Scanned (λ k. spell_operand (operand_of k)) s.now at result }
{
    match s.get(at) {
        Some(b'#') => number(s, at + 1, 256, LITERALS),
        Some(b'r') => number(s, at + 1, 32, REGISTERS),
        Some(b'@') => number(s, at + 1, 512, CELLS),
        Some(b'!') => indirect(s, at + 1, 128, PUBLICS),
        Some(b'%') => indirect(s, at + 1, 128, SENSITIVES),
        Some(b'^') => indirect(s, at + 1, 256, TABLES),
        Some(_) => answer(at, 0),
        None => 0,
    }
}

// A comma and an operand.
fn listed(s: &[u8], at: usize) -> u32
    requires { length s.now ≤ line_reach }
    ensures { Scanned (λ k. comma ∷ spell_operand (operand_of k)) s.now at result }
{
    match s.get(at) {
        Some(b',') => operand(s, at + 1),
        _ => 0,
    }
}

// A comma, a target and a newline; the position is that of the newline.
fn ending(s: &[u8], at: usize) -> u32
    requires { length s.now ≤ line_reach }
    ensures { Ended s.now at result }
{
    let Some(b',') = s.get(at) else {
        return 0;
    };
    let start = at + 1;
    if let Some(b'\n') = s.get(start) {
        return answer(start, 0);
    }
    // Where there is none, 0 is given, whatever stands at position 0.
    let target = number(s, start, LINE_NUMBERS, 1);
    match s.get(position(target)) {
        Some(b'\n') => target,
        _ => 0,
    }
}

// The operands and the target of a line whose mark and opcode have the numbers m and o. Where the line is correct its numbers are
// stored; gives the line's bytes with its newline, else 0.
fn operands(s: &[u8], m: u16, o: u16, store: &mut [u16], at: usize) -> usize
    requires { (length s.now ≤ line_reach) × (at + 6 ≤ length store.old) }
    ensures { Completed s.now m o store.old store.new at result }
{
    let d = listed(s, 5);
    if d == 0 {
        return 0;
    }
    let a = listed(s, position(d));
    if a == 0 {
        return 0;
    }
    let b = listed(s, position(a));
    if b == 0 {
        return 0;
    }
    let t = ending(s, position(b));
    if t == 0 {
        return 0;
    }
    let destination = found(d);
    let first = found(a);
    let second = found(b);
    let target = found(t);
    if fault_of(m, o, destination, first, second, target).is_some() {
        return 0;
    }
    let line = Stored {
        mark: m,
        opcode: o,
        destination,
        first,
        second,
        target,
    };
    keep(store, at, line);
    position(t) + 1
}

// Stores the numbers of the line at the front of a text, where it is correct; gives its bytes with its newline, else 0.
pub(crate) fn take(text: &[u8], store: &mut [u16], at: usize) -> usize
    requires { at + 6 ≤ length store.old }
    ensures { Took text.now store.old store.new at result }
{
    let reach = text.len().min(LINE_REACH);
    if reach < 5 {
        return 0;
    }
    let s = &text[..reach];
    let Some(m) = mark(&s[..1]) else {
        return 0;
    };
    if s[1] != b',' {
        return 0;
    }
    let Some(o) = opcode(&s[2..5]) else {
        return 0;
    };
    operands(s, m, o, store, at)
}
