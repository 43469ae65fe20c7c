// The mark check of document 01: conditions 10 to 16 of a line, of which 13 no longer occurs, and the check of a stored program (9 to 16).
// The tests are made on the stored numbers themselves, by the ranges that decode them; no line is made.

#![tactic(auto)]

ghost use Rattle.std.specs.Prelude.{◌≡◌, true, false, ◌&&◌, ℕ, eqb};
ghost use Rattle.model.specs.Answers.{number_or_0, report};
ghost use Rattle.model.specs.Places.{kind_of, is_public};
ghost use Rattle.model.specs.Stored.{mark_of, opcode_of, operand_of, target_of, line_of, line_at, lines};
ghost use Rattle.model.specs.Marks.{is_reserved, is_no_bit, has_macro, is_above, is_marked, reads_sensitive};
ghost use Rattle.model.specs.Marks.{holds10, holds11, holds14, holds15, holds16, mark_fault, marks_of, mark_check};
ghost use Rattle.marks.specs.Usual.{usual, all_usual};

use coding::{CELLS, LITERALS, PUBLICS, REGISTERS, SENSITIVES, TABLES};
use model::{Condition, Kind, LINE_WIDTH, MAX_ACCEPTED, Refusal};

// ---- what the conditions ask of a mark, an operand, an opcode and a target

fn is_marked(m: u16) -> bool
    ensures { result ≡ is_marked (mark_of m) }
{
    m != 0
}

// The kind of the places that an operand names.
pub fn kind_of(code: u16) -> Kind
    ensures { result ≡ kind_of (operand_of code) }
{
    match code {
        REGISTERS..CELLS => coding::kind_at((code - REGISTERS) as usize),
        CELLS..PUBLICS => coding::kind_at(32 + ((code - CELLS) as usize)),
        PUBLICS..SENSITIVES => Kind::Public,
        SENSITIVES..TABLES => Kind::Sensitive,
        _ => Kind::Neither,
    }
}

// Whether an operand names public places. The expander asks it of each argument of a marked line.
pub fn names_public(code: u16) -> bool
    ensures { result ≡ is_public (kind_of (operand_of code)) }
{
    match code {
        CELLS..PUBLICS => code - CELLS < 128,
        PUBLICS..SENSITIVES => true,
        SENSITIVES.. => false,
        _ => (REGISTERS + 4 <= code) & (code < REGISTERS + 16),
    }
}

// r0 to r3, also as a base, a cell above 255, or ^.
fn is_reserved(code: u16) -> bool
    ensures { result ≡ is_reserved (operand_of code) }
{
    match code {
        REGISTERS..CELLS => code - REGISTERS < 4,
        CELLS..PUBLICS => 255 < code - CELLS,
        PUBLICS..SENSITIVES => (code - PUBLICS) / 128 < 4,
        SENSITIVES..TABLES => (code - SENSITIVES) / 128 < 4,
        TABLES.. => true,
        _ => false,
    }
}

// Neither reserved nor with r16 to r31 as a base. Almost every operand is; told at once, that spares two tests of each.
fn is_usual(code: u16) -> bool
    ensures { result ≡ usual (operand_of code) }
{
    match code {
        0..CELLS => (code < REGISTERS) | (REGISTERS + 4 <= code),
        CELLS..PUBLICS => code - CELLS <= 255,
        PUBLICS..TABLES => {
            // The base of `!` and of `%`, which have 32 times 128 numbers each.
            let base = ((code - PUBLICS) / 128) % 32;
            (4 <= base) & (base < 16)
        }
        TABLES.. => false,
    }
}

// A literal above 1.
fn is_no_bit(code: u16) -> bool
    ensures { result ≡ is_no_bit (operand_of code) }
{
    match code {
        LITERALS..REGISTERS => 1 < code - LITERALS,
        _ => false,
    }
}

// Whether the opcode of a number has a macro: not, mov, and, orr, xor.
fn has_macro(o: u16) -> bool
    ensures { result ≡ has_macro (opcode_of o) }
{
    (coding::NOT <= o) & (o <= coding::XOR)
}

// A target's number is 1 more than its line, and 0 for no target: one test tells both.
fn is_above(count: u16, t: u16) -> bool
    ensures { result ≡ is_above count (target_of t) }
{
    (count as u32) + 1 < (t as u32)
}

// Whether an unmarked line has a sensitive argument.
#[tactic(auto, unfolding(model::specs::Marks::reads_sensitive))]
fn reads_sensitive(m: u16, a: u16, b: u16) -> bool
    ensures { result ≡ reads_sensitive (mark_of m) (operand_of a) (operand_of b) }
{
    !is_marked(m) && (coding::is_sensitive(kind_of(a)) || coding::is_sensitive(kind_of(b)))
}

// ---- the conditions of a line, each on the numbers of the fields that it asks about

#[tactic(auto, unfolding(model::specs::Marks::holds10))]
fn holds10(d: u16, a: u16, b: u16) -> bool
    ensures { result ≡ holds10 (line_of 0 0 d a b 0) }
{
    is_reserved(d) || is_reserved(a) || is_reserved(b)
}

#[tactic(auto, unfolding(model::specs::Marks::holds11))]
fn holds11(m: u16, d: u16) -> bool
    ensures { result ≡ holds11 (line_of m 0 d 0 0 0) }
{
    if is_marked(m) {
        names_public(d)
    } else {
        coding::is_sensitive(kind_of(d))
    }
}

#[tactic(auto, unfolding(model::specs::Marks::holds14))]
fn holds14(m: u16, o: u16) -> bool
    ensures { result ≡ holds14 (line_of m o 0 0 0 0) }
{
    is_marked(m) && !has_macro(o)
}

#[tactic(auto, unfolding(model::specs::Marks::holds15))]
fn holds15(m: u16, a: u16, b: u16) -> bool
    ensures { result ≡ holds15 (line_of m 0 0 a b 0) }
{
    is_marked(m) && (is_no_bit(a) || is_no_bit(b))
}

#[tactic(auto, unfolding(model::specs::Marks::holds16))]
fn holds16(count: u16, t: u16) -> bool
    ensures { result ≡ holds16 count (line_of 0 0 0 0 0 t) }
{
    is_above(count, t)
}

fn are_usual(d: u16, a: u16, b: u16) -> bool
    ensures { result ≡ all_usual (operand_of d) (operand_of a) (operand_of b) }
{
    is_usual(d) && is_usual(a) && is_usual(b)
}

// The lowest of the conditions that a line breaks with an operand that is not usual: a reserved place gives 10, a sensitive base 12, with 11
// between.
fn other_fault(m: u16, d: u16, a: u16, b: u16) -> Option<Condition>
    requires { all_usual (operand_of d) (operand_of a) (operand_of b) ≡ false }
    ensures { (n o t : ℕ) → number_or_0 result ≡ mark_fault n (line_of m o d a b t) }
{
    if holds10(d, a, b) {
        return Some(Condition::ReservedPlace);
    }
    if holds11(m, d) {
        return Some(Condition::WrongDestination);
    }
    Some(Condition::SensitiveArgument)
}

// The lowest of the conditions that a line breaks whose operands are all usual.
fn usual_fault(count: u16, m: u16, o: u16, d: u16, a: u16, b: u16, t: u16) -> Option<Condition>
    requires { all_usual (operand_of d) (operand_of a) (operand_of b) ≡ true }
    ensures { number_or_0 result ≡ mark_fault count (line_of m o d a b t) }
{
    if holds11(m, d) {
        return Some(Condition::WrongDestination);
    }
    if reads_sensitive(m, a, b) {
        return Some(Condition::SensitiveArgument);
    }
    if holds14(m, o) {
        return Some(Condition::NoMacro);
    }
    if holds15(m, a, b) {
        return Some(Condition::NoBit);
    }
    if holds16(count, t) {
        return Some(Condition::TargetAbove);
    }
    None
}

// Whether a line is unmarked and has no operand, as nop and jmp. Told at once, that spares a listing full of jumps every other test but one.
fn is_bare(m: u16, d: u16, a: u16, b: u16) -> bool
    ensures { result ≡ ((eqb m 0 && eqb d 0) && eqb a 0) && eqb b 0 }
{
    (m == 0) & (d == 0) & (a == 0) & (b == 0)
}

// The lowest of the conditions that such a line breaks.
fn bare_fault(count: u16, t: u16) -> Option<Condition>
    ensures { (o : ℕ) → number_or_0 result ≡ mark_fault count (line_of 0 o 0 0 0 t) }
{
    if holds16(count, t) {
        Some(Condition::TargetAbove)
    } else {
        None
    }
}

// The lowest of the conditions 10 to 16 that six numbers break in a program of so many lines.
pub fn mark_fault(count: u16, m: u16, o: u16, d: u16, a: u16, b: u16, t: u16) -> Option<Condition>
    ensures { number_or_0 result ≡ mark_fault count (line_of m o d a b t) }
{
    if is_bare(m, d, a, b) {
        return bare_fault(count, t);
    }
    if are_usual(d, a, b) {
        return usual_fault(count, m, o, d, a, b, t);
    }
    other_fault(m, d, a, b)
}

// The same of line i of a stored program.
fn mark_fault_at(count: u16, program: &[u16], i: usize) -> Option<Condition>
    ensures { number_or_0 result ≡ mark_fault count (line_at program.now i) }
{
    let n = coding::numbers_at(program, i);
    mark_fault(count, n[0], n[1], n[2], n[3], n[4], n[5])
}

// ---- the conditions of a program

// The check of a program whose numbers are lines: 9 more than 1,024 lines, then the first bad line; else the line count.
fn check_marks(program: &[u16]) -> Result<u32, Refusal>
    ensures { report result ≡ marks_of (lines program.now) }
{
    let count = program.len() / LINE_WIDTH;
    if MAX_ACCEPTED < count {
        return Err(Refusal {
            condition: Condition::TooLong,
            line: 0,
        });
    }
    for i in 0..count {
        if let Some(condition) = mark_fault_at(count as u16, program, i) {
            return Err(Refusal {
                condition,
                line: i as u16,
            });
        }
    }
    Ok(count as u32)
}

// The mark check of a stored program: its line count, or 7, 3 to 6, then 9 to 16.
pub fn check(program: &[u16]) -> Result<u32, Refusal>
    ensures { report result ≡ mark_check program.now }
{
    coding::check_program(program)?;
    check_marks(program)
}
