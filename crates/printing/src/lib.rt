// 'Line form' of document 01, the writer of program text: a stored program to its text (conditions 7, 3 to 6, 17). The spelling of stored
// numbers goes byte by byte. A byte is written where there is room, so that no function here asks for room.

#![tactic(auto)]

ghost use Rattle.std.specs.Prelude.{◌≡◌, ◌+◌, ◌*◌, ◌/◌, ◌%◌, ◌<◌, ◌≤◌};
ghost use mathlib.Core.List.{[], ◌∷◌, ◌++◌, flat_map};
ghost use Rattle.model.specs.Answers.{report, outcome};
ghost use Rattle.model.specs.Limits.{max_lines};
ghost use Rattle.model.specs.Stored.{mark_of, opcode_of, operand_of, target_of, line_of, lines_from};
ghost use Rattle.model.specs.Text.{comma, newline, digit_at, decimal, indirect, spell_mark, spell_opcode, spell_operand, spell_target, spell_line, write_outcome};
ghost use Rattle.printing.specs.Writing.{Wrote, printable};

mod size;

use crate::size::text_size;
use coding::{
    CELLS, LITERALS, PUBLICS, REGISTERS, SENSITIVES, TABLES, check_program, numbers_at, opcode_of,
};
use model::{Condition, LINE_WIDTH, Opcode, Refusal};

// A byte, where there is room.
pub fn put(out: &mut [u8], at: usize, b: u8) -> usize
    requires { at + 1 ≤ printable }
    ensures { Wrote out.old out.new at result (b ∷ []) 1 }
{
    if at < out.len() {
        out[at] = b;
    }
    at + 1
}

// The digit of n at a power of ten, where n is not below it.
fn put_digit(out: &mut [u8], at: usize, n: u16, p: u16) -> usize
    requires { (at + 1 ≤ printable) × (0 < p) }
    ensures { Wrote out.old out.new at result (digit_at p n) 1 }
{
    if n < p {
        return at;
    }
    put(out, at, b'0' + (n / p % 10) as u8)
}

// A number in decimal.
pub fn put_number(out: &mut [u8], at: usize, n: u16) -> usize
    requires { at + 5 ≤ printable }
    ensures { Wrote out.old out.new at result (decimal n) 5 }
{
    let a = put_digit(out, at, n, 10000);
    let b = put_digit(out, a, n, 1000);
    let c = put_digit(out, b, n, 100);
    let d = put_digit(out, c, n, 10);
    put(out, d, b'0' + (n % 10) as u8)
}

// A byte and a number.
pub fn put_tagged(out: &mut [u8], at: usize, c: u8, n: u16) -> usize
    requires { at + 6 ≤ printable }
    ensures { Wrote out.old out.new at result (c ∷ decimal n) 6 }
{
    let a = put(out, at, c);
    put_number(out, a, n)
}

// An indirect operand: a sign, the base and the offset, of w numbers to a base.
fn put_indirect(out: &mut [u8], at: usize, c: u8, n: u16, w: u16) -> usize
    requires { (at + 13 ≤ printable) × (0 < w) }
    ensures { Wrote out.old out.new at result (indirect c (n / w) (n % w)) 13 }
{
    let x = put(out, at, c);
    let y = put_tagged(out, x, b'r', n / w);
    put_tagged(out, y, b'+', n % w)
}

// An operand's number; 0 is an empty field.
pub fn put_operand(out: &mut [u8], at: usize, k: u16) -> usize
    requires { at + 13 ≤ printable }
    ensures { Wrote out.old out.new at result (spell_operand (operand_of k)) 13 }
{
    match k {
        LITERALS..REGISTERS => put_tagged(out, at, b'#', k - LITERALS),
        REGISTERS..CELLS => put_tagged(out, at, b'r', k - REGISTERS),
        CELLS..PUBLICS => put_tagged(out, at, b'@', k - CELLS),
        PUBLICS..SENSITIVES => put_indirect(out, at, b'!', k - PUBLICS, 128),
        SENSITIVES..TABLES => put_indirect(out, at, b'%', k - SENSITIVES, 128),
        TABLES.. => put_indirect(out, at, b'^', k - TABLES, 256),
        _ => at,
    }
}

// A target's number; 0 is an empty field.
fn put_target(out: &mut [u8], at: usize, k: u16) -> usize
    requires { at + 5 ≤ printable }
    ensures { Wrote out.old out.new at result (spell_target (target_of k)) 5 }
{
    if k == 0 {
        return at;
    }
    put_number(out, at, k - 1)
}

// A mark's number.
fn put_mark(out: &mut [u8], at: usize, k: u16) -> usize
    requires { at + 1 ≤ printable }
    ensures { Wrote out.old out.new at result (spell_mark (mark_of k)) 1 }
{
    put(out, at, if k == 0 { b'u' } else { b's' })
}

// The three letters of opcode k as one number, the first letter highest. A table of names would be copied for each line.
fn letters(k: u16) -> u32
    ensures { (result < 16777216) × (spell_opcode (opcode_of k) ≡ result / 65536 ∷ result / 256 % 256 ∷ result % 256 ∷ []) }
{
    match opcode_of(k) {
        Opcode::Nop => 0x6e6f70,
        Opcode::Jmp => 0x6a6d70,
        Opcode::Not => 0x6e6f74,
        Opcode::Mov => 0x6d6f76,
        Opcode::And => 0x616e64,
        Opcode::Orr => 0x6f7272,
        Opcode::Xor => 0x786f72,
        Opcode::Lsl => 0x6c736c,
        Opcode::Lsr => 0x6c7372,
        Opcode::Add => 0x616464,
        Opcode::Mul => 0x6d756c,
        Opcode::Beq => 0x626571,
        Opcode::Bne => 0x626e65,
    }
}

// An opcode's number.
pub fn put_opcode(out: &mut [u8], at: usize, k: u16) -> usize
    requires { at + 3 ≤ printable }
    ensures { Wrote out.old out.new at result (spell_opcode (opcode_of k)) 3 }
{
    let n = letters(k);
    let a = put(out, at, (n / 65536) as u8);
    let b = put(out, a, (n / 256 % 256) as u8);
    put(out, b, (n % 256) as u8)
}

// A comma and an operand.
fn put_listed(out: &mut [u8], at: usize, k: u16) -> usize
    requires { at + 14 ≤ printable }
    ensures { Wrote out.old out.new at result (comma ∷ spell_operand (operand_of k)) 14 }
{
    let a = put(out, at, b',');
    put_operand(out, a, k)
}

// The last three fields, each after its comma, and the newline.
fn put_rest(out: &mut [u8], at: usize, a: u16, b: u16, t: u16) -> usize
    requires { at + 35 ≤ printable }
    ensures { Wrote out.old out.new at result (comma ∷ (spell_operand (operand_of a) ++ (comma ∷ (spell_operand (operand_of b) ++ (comma ∷ (spell_target (target_of t) ++ (newline ∷ []))))))) 35 }
{
    let d = put_listed(out, at, a);
    let e = put_listed(out, d, b);
    let f = put(out, e, b',');
    let g = put_target(out, f, t);
    put(out, g, b'\n')
}

// A line with its newline.
fn put_line(out: &mut [u8], at: usize, m: u16, o: u16, d: u16, a: u16, b: u16, t: u16) -> usize
    requires { at + 54 ≤ printable }
    ensures { Wrote out.old out.new at result (spell_line (line_of m o d a b t)) 54 }
{
    let marked = put_mark(out, at, m);
    let parted = put(out, marked, b',');
    let named = put_opcode(out, parted, o);
    let placed = put_listed(out, named, d);
    put_rest(out, placed, a, b, t)
}

// Writes the text of the first n lines, as far as there is room, and gives its length.
fn print(program: &[u16], n: usize, out: &mut [u8]) -> usize
    requires { n ≤ max_lines }
    ensures { Wrote out.old out.new 0 result (flat_map spell_line (lines_from program.now 0 n)) (54 * n) }
{
    let mut at: usize = 0;
    for i in 0..n {
        let l = numbers_at(program, i);
        at = put_line(out, at, l[0], l[1], l[2], l[3], l[4], l[5]);
    }
    at
}

// The most bytes of a correct line, its newline among them.
pub const LONGEST_LINE: usize = 34;

// Writes the text of a stored program. That it fits is known before a byte is written: there is room for as many of the longest lines, or
// the text's bytes are counted.
pub fn write(program: &[u16], out: &mut [u8]) -> Result<u32, Refusal>
    ensures { outcome (report result) (out.new ∷ []) ≡ write_outcome program.now out.old }
{
    check_program(program)?;
    let n = program.len() / LINE_WIDTH;
    if out.len() < LONGEST_LINE * n && out.len() < text_size(program, n) {
        return Err(Refusal {
            condition: Condition::NoRoom,
            line: 0,
        });
    }
    let written = print(program, n, out);
    Ok(written as u32)
}
