// The fields of a line: each is read to its stored number, or found to be spelled wrong.
ghost use Rattle.std.specs.Prelude.{◌≡◌, ◌+◌, ◌≤◌, ◌<◌};
ghost use Rattle.model.specs.Stored.{no_literal};
ghost use Rattle.model.specs.Text.{mark_field, opcode_field, operand_field, target_field};
ghost use Rattle.text.specs.Fields.{found, digits_from, read_number, shift, read_indirect, read_direct, read_kind};

use crate::cut::{beyond, find};
use coding::{CELLS, LITERALS, PUBLICS, REGISTERS, SENSITIVES, TABLES, TARGETS};

// How many line numbers a target may name.
pub(crate) const LINE_NUMBERS: u16 = TARGETS - 1;

// The number that digits spell, while it stays below n.
fn digits(s: &[u8], n: u16) -> Option<u16>
    ensures { result ≡ digits_from n 0 s.now }
{
    let mut v: u16 = 0;
    for &b in s {
        if b < b'0' || b'9' < b {
            return None;
        }
        let next = 10 * (v as u32) + ((b - b'0') as u32);
        if (n as u32) <= next {
            return None;
        }
        v = next as u16;
    }
    Some(v)
}

// A number below n, in decimal with no leading zero.
pub fn number(s: &[u8], n: u16) -> Option<u16>
    ensures { result ≡ read_number n s.now }
{
    match s {
        [] => None,
        [b'0', rest @ ..] => { if rest.is_empty() { Some(0) } else { None } }
        _ => digits(s, n),
    }
}

// `u` is 0, `s` is 1.
pub(crate) fn mark(s: &[u8]) -> Option<u16>
    ensures { found result ≡ (mark_field s.now).number }
{
    match s {
        b"u" => Some(0),
        b"s" => Some(1),
        _ => None,
    }
}

// The number of the opcode that s names.
#[tactic(auto, using(crate::proofs::FieldLaws::unnamed))]
pub fn opcode(s: &[u8]) -> Option<u16>
    ensures { found result ≡ (opcode_field s.now).number }
{
    match s {
        b"nop" => Some(0),
        b"jmp" => Some(1),
        b"not" => Some(2),
        b"mov" => Some(3),
        b"and" => Some(4),
        b"orr" => Some(5),
        b"xor" => Some(6),
        b"lsl" => Some(7),
        b"lsr" => Some(8),
        b"add" => Some(9),
        b"mul" => Some(10),
        b"beq" => Some(11),
        b"bne" => Some(12),
        _ => None,
    }
}

// A number below n, and more.
fn plain(s: &[u8], n: u16, more: u16) -> Option<u16>
    requires { (0 < n) × (n + more < 65536) }
    ensures { result ≡ shift more (read_number n s.now) }
{
    let k = number(s, n)?;
    Some(more + k)
}

// `rN+k` with k below w, and more.
fn indirect(s: &[u8], w: u16, more: u16) -> Option<u16>
    requires { (0 < w) × ((w ≤ 256) × (more < 20000)) }
    ensures { result ≡ shift more (read_indirect w s.now) }
{
    let [b'r', rest @ ..] = s else {
        return None;
    };
    let n = find(rest, b'+');
    let b = number(&rest[..n], 32)?;
    let k = number(beyond(rest, n), w)?;
    Some(more + (w * b + k))
}

// `#n`, `rN` or `@n`, whose first byte is c.
pub fn direct(c: u8, s: &[u8]) -> Option<u16>
    ensures { result ≡ read_direct c s.now }
{
    match c {
        b'#' => plain(s, 256, LITERALS),
        b'r' => plain(s, 32, REGISTERS),
        b'@' => plain(s, 512, CELLS),
        _ => None,
    }
}

// An operand whose first byte is c.
fn kind(c: u8, s: &[u8]) -> Option<u16>
    ensures { result ≡ read_kind c s.now }
{
    match c {
        b'!' => indirect(s, 128, PUBLICS),
        b'%' => indirect(s, 128, SENSITIVES),
        b'^' => indirect(s, 256, TABLES),
        _ => direct(c, s),
    }
}

// An operand; an empty field is 0.
pub(crate) fn operand(s: &[u8]) -> Option<u16>
    ensures { found result ≡ (operand_field s.now).number }
{
    match s {
        [] => Some(0),
        [c, rest @ ..] => kind(*c, rest),
    }
}

// What was found, unless it is a literal.
pub fn no_literal(f: Option<u16>) -> Option<u16>
    ensures { found result ≡ no_literal (found f) }
{
    let k = f?;
    match k {
        LITERALS..REGISTERS => None,
        _ => Some(k),
    }
}

// Any operand but a literal.
pub(crate) fn destination(s: &[u8]) -> Option<u16>
    ensures { found result ≡ no_literal (operand_field s.now).number }
{
    no_literal(operand(s))
}

// A line number, and 1 more; an empty field is 0.
pub(crate) fn target(s: &[u8]) -> Option<u16>
    ensures { found result ≡ (target_field s.now).number }
{
    match s {
        [] => Some(0),
        _ => plain(s, LINE_NUMBERS, 1),
    }
}
