// The lines that a marked line becomes, written into a lent store as stored numbers: a line, the pieces of the macros, the macros ('Code,
// tables, macros' of document 01). Each `put_..` writes from line `at` on and hands back the line past its last, where the next goes on.

#![tactic(auto)]

ghost use Rattle.std.specs.Prelude.{◌≡◌, true, [], ◌∷◌, ◌+◌, ◌*◌, ◌%◌, ◌≤◌, ◌<◌, length};
ghost use Rattle.model.specs.declared.Operand.{Operand};
ghost use Rattle.model.specs.declared.Target.{Target};
ghost use Rattle.model.specs.Stored.{target_code, operand_of};
ghost use Rattle.model.specs.Expansion.{coded, marked_line, move, precharged, code_bit, load, scale, combine, fetch, flip, write_back, lookup, negate, copy, macro};
ghost use Rattle.pieces.specs.Writes.{line_with, Wrote};

use marks::names_public;
use model::{LINE_WIDTH, Layout, Mark, Opcode};

// The numbers of r0 to r3 and of #1.
const R0: u16 = coding::REGISTERS;

const R1: u16 = coding::REGISTERS + 1;

const R2: u16 = coding::REGISTERS + 2;

const R3: u16 = coding::REGISTERS + 3;

const ONE: u16 = coding::LITERALS + 1;

// ---- operands

// `#n`
fn literal(n: u8) -> u16
    ensures { operand_of result ≡ Operand.Literal n }
{
    coding::LITERALS + (n as u16)
}

// `^rn+t`
fn table_cell(n: u16, t: u8) -> u16
    requires { n < 32 }
    ensures { operand_of result ≡ Operand.TableCell n t }
{
    coding::TABLES + 256 * n + (t as u16)
}

// A literal of a marked line, coded.
pub fn coded(layout: Layout, code: u16) -> u16
    ensures { operand_of result ≡ coded layout (operand_of code) }
{
    match code {
        coding::LITERALS..coding::REGISTERS => {
            literal(coding::code_of(layout, (code - coding::LITERALS) as u8))
        }
        _ => code,
    }
}

// ---- a line at line `at` of a store

// A line of that mark and opcode, with these numbers for its operands and its target.
pub fn put_line(
    out: &mut [u16],
    at: usize,
    m: Mark,
    o: Opcode,
    d: u16,
    a: u16,
    b: u16,
    t: u16,
) -> usize
    requires { 6 * (at + 1) ≤ length out.old }
    ensures { (y : Target) → t ≡ target_code y % 65536 → Wrote out.old out.new at result (line_with m o d a b y ∷ []) }
{
    let k = LINE_WIDTH * at;
    out[k] = coding::mark_code(m);
    out[k + 1] = coding::opcode_code(o);
    out[k + 2] = d;
    out[k + 3] = a;
    out[k + 4] = b;
    out[k + 5] = t;
    at + 1
}

fn put_marked(out: &mut [u16], at: usize, o: Opcode, d: u16, a: u16, b: u16) -> usize
    requires { 6 * (at + 1) ≤ length out.old }
    ensures { Wrote out.old out.new at result (marked_line o (operand_of d) (operand_of a) (operand_of b) ∷ []) }
{
    put_line(out, at, Mark::Marked, o, d, a, b, 0)
}

fn put_move(out: &mut [u16], at: usize, d: u16, a: u16) -> usize
    requires { 6 * (at + 1) ≤ length out.old }
    ensures { Wrote out.old out.new at result (move (operand_of d) (operand_of a) ∷ []) }
{
    put_marked(out, at, Opcode::Mov, d, a, 0)
}

// ---- the pieces

// A place precharged, and written from an operand.
fn put_precharged(out: &mut [u16], at: usize, d: u16, a: u16) -> usize
    requires { 6 * (at + 2) ≤ length out.old }
    ensures { Wrote out.old out.new at result (precharged (operand_of d) (operand_of a)) }
{
    let cleared = put_move(out, at, d, R0);
    put_move(out, cleared, d, a)
}

// A public place's byte in register n: its lowest bit, and the code of that.
fn put_code_bit(out: &mut [u16], at: usize, n: u16) -> usize
    requires { (n < 32) × (6 * (at + 2) ≤ length out.old) }
    ensures { Wrote out.old out.new at result (code_bit true n) }
{
    let register = R0 + n;
    let masked = put_marked(out, at, Opcode::And, register, register, ONE);
    put_move(out, masked, register, table_cell(n, coding::CODE_TABLE))
}

// Register n precharged and loaded; the bit of a public place is coded there.
fn put_load(out: &mut [u16], at: usize, n: u16, a: u16) -> usize
    requires { (n < 32) × (6 * (at + length (load n (operand_of a))) ≤ length out.old) }
    ensures { Wrote out.old out.new at result (load n (operand_of a)) }
{
    let loaded = put_precharged(out, at, R0 + n, a);
    if names_public(a) {
        return put_code_bit(out, loaded, n);
    }
    loaded
}

// The first code masked, and shifted to its place in the index.
fn put_scale(out: &mut [u16], at: usize, layout: Layout) -> usize
    requires { 6 * (at + length (scale layout)) ≤ length out.old }
    ensures { Wrote out.old out.new at result (scale layout) }
{
    let masked = put_marked(out, at, Opcode::And, R1, R1, literal(layout.mask));
    let shifted = put_marked(out, masked, Opcode::Lsl, R1, R1, ONE);
    if layout.spaced {
        return shifted;
    }
    put_marked(out, shifted, Opcode::Lsl, R1, R1, ONE)
}

// The second code masked, and joined to the first.
fn put_combine(out: &mut [u16], at: usize, layout: Layout) -> usize
    requires { 6 * (at + length (combine layout)) ≤ length out.old }
    ensures { Wrote out.old out.new at result (combine layout) }
{
    let masked = put_marked(out, at, Opcode::And, R2, R2, literal(layout.mask));
    put_marked(out, masked, Opcode::Orr, R1, R1, R2)
}

// r3 precharged and loaded from the table that begins at t, and the bus brought back to the table's start.
fn put_fetch(out: &mut [u16], at: usize, t: u8) -> usize
    requires { 6 * (at + length (fetch t)) ≤ length out.old }
    ensures { Wrote out.old out.new at result (fetch t) }
{
    let start = table_cell(0, t);
    let cleared = put_move(out, at, R3, start);
    let loaded = put_move(out, cleared, R3, table_cell(1, t));
    put_move(out, loaded, R2, start)
}

// Both bits of the code flipped.
fn put_flip(out: &mut [u16], at: usize, layout: Layout) -> usize
    requires { 6 * (at + length (flip layout)) ≤ length out.old }
    ensures { Wrote out.old out.new at result (flip layout) }
{
    put_marked(out, at, Opcode::Xor, R1, R1, literal(layout.mask))
}

// The destination precharged, and written from register n.
fn put_write_back(out: &mut [u16], at: usize, n: u16, d: u16) -> usize
    requires { (n < 32) × (6 * (at + length (write_back n (operand_of d))) ≤ length out.old) }
    ensures { Wrote out.old out.new at result (write_back n (operand_of d)) }
{
    put_precharged(out, at, d, R0 + n)
}

// ---- the macros

// and, orr, xor, by where their table begins.
fn put_lookup(out: &mut [u16], at: usize, layout: Layout, t: u8, d: u16, a: u16, b: u16) -> usize
    requires { 6 * (at + length (lookup layout t (operand_of d) (operand_of a) (operand_of b))) ≤ length out.old }
    ensures { Wrote out.old out.new at result (lookup layout t (operand_of d) (operand_of a) (operand_of b)) }
{
    let loaded = put_load(out, at, 1, a);
    let scaled = put_scale(out, loaded, layout);
    let both = put_load(out, scaled, 2, b);
    let combined = put_combine(out, both, layout);
    let fetched = put_fetch(out, combined, t);
    put_write_back(out, fetched, 3, d)
}

// not
fn put_negate(out: &mut [u16], at: usize, layout: Layout, d: u16, a: u16) -> usize
    requires { 6 * (at + length (negate layout (operand_of d) (operand_of a))) ≤ length out.old }
    ensures { Wrote out.old out.new at result (negate layout (operand_of d) (operand_of a)) }
{
    let loaded = put_load(out, at, 1, a);
    let flipped = put_flip(out, loaded, layout);
    put_write_back(out, flipped, 1, d)
}

// mov
fn put_copy(out: &mut [u16], at: usize, d: u16, a: u16) -> usize
    requires { 6 * (at + length (copy (operand_of d) (operand_of a))) ≤ length out.old }
    ensures { Wrote out.old out.new at result (copy (operand_of d) (operand_of a)) }
{
    let loaded = put_load(out, at, 3, a);
    put_write_back(out, loaded, 3, d)
}

// The macro of an opcode; those that no accepted marked line has give nothing. The lookup is called in one place, so that the compiler inlines it
// into the loop over the lines.
pub fn put_macro(
    out: &mut [u16],
    at: usize,
    layout: Layout,
    o: Opcode,
    d: u16,
    a: u16,
    b: u16,
) -> usize
    requires { 6 * (at + length (macro layout o (operand_of d) (operand_of a) (operand_of b))) ≤ length out.old }
    ensures { Wrote out.old out.new at result (macro layout o (operand_of d) (operand_of a) (operand_of b)) }
{
    let table = match o {
        Opcode::Not => return put_negate(out, at, layout, d, a),
        Opcode::Mov => return put_copy(out, at, d, a),
        Opcode::And => 0,
        Opcode::Orr => layout.orr,
        Opcode::Xor => layout.xor,
        _ => return at,
    };
    put_lookup(out, at, layout, table, d, a, b)
}
