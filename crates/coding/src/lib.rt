// What lines and bits are as numbers. 'Line form' of document 01, stored programs: six numbers to a line and back, conditions 3 to 6 of
// six numbers, and the check of a whole program (7, 3 to 6). Decoding is total: every number gives some field, and the check says
// whether the numbers are a line. Last the kind of a place, from 'Places of the machine', and the code of a bit, from 'Code, tables,
// macros', in one of the layouts of request 04.

#![tactic(auto)]

ghost use Rattle.std.specs.Prelude.{◌≡◌, ◌⊎◌, true, false, map, ◌%◌, ◌^◌, ◌≤◌, ◌<◌, get_or, IfOk, IfErr};
ghost use Rattle.model.specs.declared.Condition.TheVariants.{UnknownLayout};
ghost use Rattle.model.specs.Answers.{number_of, number_or_0, report};
ghost use Rattle.model.specs.Layouts.{layout_of, is_six};
ghost use Rattle.model.specs.Code.{code};
ghost use Rattle.model.specs.Places.{kind, is_public, is_sensitive};
ghost use Rattle.model.specs.Lines.{filled, fills, is_literal};
ghost use Rattle.model.specs.Stored.{mark_of, opcode_of, operand_of, target_of, line_of, line_at};
ghost use Rattle.model.specs.Stored.{mark_code, opcode_code, operand_code, target_code, codes};
ghost use Rattle.model.specs.Stored.{same_filled, parsed_numbers, fault, fault_at, program_check};
ghost use Rattle.coding.specs.Fields.{numbers_at, in_range};

use model::{
    Condition, Kind, LINE_WIDTH, Layout, Line, MAX_LINES, Mark, Opcode, Operand, Refusal, Target,
};

// How many numbers there are for a mark, an opcode, an operand and a target.
pub const MARKS: u16 = 2;

pub const OPCODES: u16 = 13;

pub const OPERANDS: u16 = 17185;

pub const TARGETS: u16 = 32770;

// The numbers of the opcodes that a marked line may have begin with not and end with xor; mov is between, and from `and` on they have tables.
pub const NOT: u16 = 2;

pub const MOV: u16 = 3;

pub const AND: u16 = 4;

pub const XOR: u16 = 6;

// Where the numbers of each form of operand begin.
pub const LITERALS: u16 = 1;

pub const REGISTERS: u16 = 257;

pub const CELLS: u16 = 289;

pub const PUBLICS: u16 = 801;

pub const SENSITIVES: u16 = 4897;

pub const TABLES: u16 = 8993;

// What a number of the store stands for. Every number stands for something, so this is no `TryFrom`; a `From` would have to stand in model, where
// the types are, away from the layout of the store.
pub fn mark_of(code: u16) -> Mark
    ensures { result ≡ mark_of code }
{
    if code == 0 {
        Mark::Unmarked
    } else {
        Mark::Marked
    }
}

pub fn opcode_of(code: u16) -> Opcode
    ensures { result ≡ opcode_of code }
{
    match code {
        0 => Opcode::Nop,
        1 => Opcode::Jmp,
        2 => Opcode::Not,
        3 => Opcode::Mov,
        4 => Opcode::And,
        5 => Opcode::Orr,
        6 => Opcode::Xor,
        7 => Opcode::Lsl,
        8 => Opcode::Lsr,
        9 => Opcode::Add,
        10 => Opcode::Mul,
        11 => Opcode::Beq,
        12 => Opcode::Bne,
        _ => Opcode::Nop,
    }
}

pub fn operand_of(code: u16) -> Operand
    ensures { result ≡ operand_of code }
{
    match code {
        LITERALS..REGISTERS => Operand::Literal((code - LITERALS) as u8),
        REGISTERS..CELLS => Operand::Register((code - REGISTERS) as u8),
        CELLS..PUBLICS => Operand::Cell(code - CELLS),
        PUBLICS..SENSITIVES => {
            let n = code - PUBLICS;
            Operand::PublicCell {
                base: (n / 128) as u8,
                offset: (n % 128) as u8,
            }
        }
        SENSITIVES..TABLES => {
            let n = code - SENSITIVES;
            Operand::SensitiveCell {
                base: (n / 128) as u8,
                offset: (n % 128) as u8,
            }
        }
        TABLES.. => {
            let n = code - TABLES;
            Operand::TableCell {
                base: (n / 256) as u8,
                offset: (n % 256) as u8,
            }
        }
        _ => Operand::Empty,
    }
}

pub fn target_of(code: u16) -> Target
    ensures { result ≡ target_of code }
{
    if code == 0 {
        Target::Empty
    } else {
        Target::Line(code - 1)
    }
}

pub fn line_of(m: u16, o: u16, d: u16, a: u16, b: u16, t: u16) -> Line
    ensures { result ≡ line_of m o d a b t }
{
    Line {
        mark: mark_of(m),
        opcode: opcode_of(o),
        destination: operand_of(d),
        first: operand_of(a),
        second: operand_of(b),
        target: target_of(t),
    }
}

// A number of the store, 0 past its end.
fn number_at(program: &[u16], k: usize) -> u16
    ensures { result ≡ get_or program.now k 0 }
{
    program.get(k).copied().unwrap_or(0)
}

// The six numbers at line i of a store; past its whole lines those that are left, then 0.
pub fn numbers_at(program: &[u16], i: usize) -> [u16; LINE_WIDTH]
    ensures { result ≡ numbers_at program.now i }
{
    let count = program.len() / LINE_WIDTH;
    if i < count {
        let k = LINE_WIDTH * i;
        return [
            program[k],
            program[k + 1],
            program[k + 2],
            program[k + 3],
            program[k + 4],
            program[k + 5],
        ];
    }
    if count < i {
        return [0; LINE_WIDTH];
    }
    let k = LINE_WIDTH * i;
    [
        number_at(program, k),
        number_at(program, k + 1),
        number_at(program, k + 2),
        number_at(program, k + 3),
        number_at(program, k + 4),
        number_at(program, k + 5),
    ]
}

// Line i of a stored program.
pub fn line_at(program: &[u16], i: usize) -> Line
    ensures { result ≡ line_at program.now i }
{
    let n = numbers_at(program, i);
    line_of(n[0], n[1], n[2], n[3], n[4], n[5])
}

// The lowest 16 bits.
fn low(n: u32) -> u16
    ensures { result ≡ n % 65536 }
{
    (n % 65536) as u16
}

pub fn mark_code(mark: Mark) -> u16
    ensures { result ≡ mark_code mark }
{
    mark as u16
}

pub fn opcode_code(opcode: Opcode) -> u16
    ensures { result ≡ opcode_code opcode }
{
    opcode as u16
}

fn operand_code(operand: Operand) -> u16
    ensures { result ≡ operand_code operand % 65536 }
{
    match operand {
        Operand::Empty => 0,
        Operand::Literal(n) => low((LITERALS as u32) + (n as u32)),
        Operand::Register(n) => low((REGISTERS as u32) + (n as u32)),
        Operand::Cell(n) => low((CELLS as u32) + (n as u32)),
        Operand::PublicCell { base, offset } => {
            low((PUBLICS as u32) + 128 * (base as u32) + (offset as u32))
        }
        Operand::SensitiveCell { base, offset } => {
            low((SENSITIVES as u32) + 128 * (base as u32) + (offset as u32))
        }
        Operand::TableCell { base, offset } => {
            low((TABLES as u32) + 256 * (base as u32) + (offset as u32))
        }
    }
}

fn target_code(target: Target) -> u16
    ensures { result ≡ target_code target % 65536 }
{
    match target {
        Target::Empty => 0,
        Target::Line(n) => low(1 + (n as u32)),
    }
}

// The six numbers of a line, each modulo 65,536; of a correct line they are its codes.
pub fn encode(line: Line) -> [u16; LINE_WIDTH]
    ensures { result ≡ map (λ n. n % 65536) (codes line) }
{
    [
        mark_code(line.mark),
        opcode_code(line.opcode),
        operand_code(line.destination),
        operand_code(line.first),
        operand_code(line.second),
        target_code(line.target),
    ]
}

// Whether the fields after the opcode of number o, destination, first, second and target, are filled just where it fills them.
// A chain of tests, and so `is_literal` and `is_in_range`: as a `match` on o and chains of `&&` they take the check of a listing of jumps, and
// their expansion, a third longer.
pub fn is_shaped(o: u16, d: bool, a: bool, b: bool, t: bool) -> bool
    ensures { result ≡ same_filled (fills (opcode_of o)) (filled d a b t) }
{
    if o == 0 {
        return !(d | a | b | t);
    }
    if o == 1 {
        return !(d | a | b) & t;
    }
    if o < 4 {
        return d & a & !(b | t);
    }
    if o < 11 {
        return d & a & b & !t;
    }
    if o < OPCODES {
        return !d & a & b & t;
    }
    !(d | a | b | t)
}

// Whether an operand's number is a literal's.
fn is_literal(code: u16) -> bool
    ensures { result ≡ is_literal (operand_of code) }
{
    if code < LITERALS {
        false
    } else {
        code < REGISTERS
    }
}

// Whether operands and target are numbers of such, and the destination's is no literal's.
fn is_in_range(d: u16, a: u16, b: u16, t: u16) -> bool
    ensures { result ≡ in_range d a b t }
{
    if OPERANDS <= d {
        return false;
    }
    if is_literal(d) {
        return false;
    }
    if OPERANDS <= a {
        return false;
    }
    if OPERANDS <= b {
        return false;
    }
    t < TARGETS
}

// The condition that six numbers break by its number, 3 to 6, lowest first; 0 for none. By the number, and so `fault_at`: where the loop of
// `check_program` has the condition itself in hand, a listing of jumps takes a quarter longer.
fn fault_number(m: u16, o: u16, d: u16, a: u16, b: u16, t: u16) -> u8
    ensures value { result ≡ fault (parsed_numbers m o d a b t) }
    ensures few { (result ≡ 0) ⊎ ((3 ≤ result) × (result ≤ 6)) }
{
    if MARKS <= m {
        return 3;
    }
    if OPCODES <= o {
        return 4;
    }
    if is_shaped(o, 0 < d, 0 < a, 0 < b, 0 < t) {
        if is_in_range(d, a, b, t) {
            return 0;
        }
        return 6;
    }
    5
}

// The condition of such a number.
fn condition_of(number: u8) -> Condition
    requires { (3 ≤ number) × (number ≤ 6) }
    ensures { number_of result ≡ number }
{
    match number {
        3 => Condition::UnknownMark,
        4 => Condition::UnknownOpcode,
        5 => Condition::WrongFields,
        _ => Condition::WrongOperand,
    }
}

// The condition that six numbers break, 3 to 6, lowest first.
pub fn fault_of(m: u16, o: u16, d: u16, a: u16, b: u16, t: u16) -> Option<Condition>
    ensures { number_or_0 result ≡ fault (parsed_numbers m o d a b t) }
{
    let number = fault_number(m, o, d, a, b, t);
    if number == 0 {
        return None;
    }
    Some(condition_of(number))
}

fn fault_at(program: &[u16], i: usize) -> u8
    ensures value { result ≡ fault_at program.now i }
    ensures few { (result ≡ 0) ⊎ ((3 ≤ result) × (result ≤ 6)) }
{
    let n = numbers_at(program, i);
    fault_number(n[0], n[1], n[2], n[3], n[4], n[5])
}

// The line count of a stored program; else 7 at line 32,768, or the fault of the lowest line whose numbers are no line.
pub fn check_program(program: &[u16]) -> Result<u32, Refusal>
    ensures { report result ≡ program_check program.now }
{
    let count = program.len() / LINE_WIDTH;
    if MAX_LINES < count {
        return Err(Refusal {
            condition: Condition::TooManyLines,
            line: MAX_LINES as u16,
        });
    }
    for i in 0..count {
        let number = fault_at(program, i);
        if number != 0 {
            return Err(Refusal {
                condition: condition_of(number),
                line: i as u16,
            });
        }
    }
    Ok(count as u32)
}

// The kind of a place, registers first, then cells.
pub fn kind_at(i: usize) -> Kind
    ensures { result ≡ kind i }
{
    match i {
        4..16 | 32..160 => Kind::Public,
        16..32 | 160..288 => Kind::Sensitive,
        _ => Kind::Neither,
    }
}

pub fn is_public(kind: Kind) -> bool
    ensures { result ≡ is_public kind }
{
    kind == Kind::Public
}

pub fn is_sensitive(kind: Kind) -> bool
    ensures { result ≡ is_sensitive kind }
{
    kind == Kind::Sensitive
}

// Whether a position and a spacing name one of the six layouts; where they do not, condition 23 holds.
pub fn is_six(position: u8, spacing: u8) -> bool
    ensures { result ≡ is_six position spacing }
{
    position < 3 && spacing < 2
}

// 2 to the power of a position.
fn power(position: u8) -> u8
    requires { position < 3 }
    ensures { (result ≡ 2 ^ position) × (result ≤ 4) }
{
    1 << position
}

// The layout that a position and a spacing name.
pub fn layout_of(position: u8, spacing: u8) -> Layout
    requires { is_six position spacing ≡ true }
    ensures { result ≡ layout_of position spacing }
{
    let one = power(position);
    if spacing == 0 {
        return Layout {
            one,
            zero: 2 * one,
            mask: 3 * one,
            spaced: false,
            orr: 16 * one,
            xor: 32 * one,
        };
    }
    Layout {
        one,
        zero: 4 * one,
        mask: 5 * one,
        spaced: true,
        orr: 16 * one,
        xor: 32 * one,
    }
}

// The layout that a position and a spacing name, or condition 23.
pub fn layout_named(position: u8, spacing: u8) -> Result<Layout, Refusal>
    ensures ok { IfOk result (λ L. (is_six position spacing ≡ true) × (L ≡ layout_of position spacing)) }
    ensures err { IfErr result (λ r. (is_six position spacing ≡ false) × (r ≡ record { condition = UnknownLayout; line = 0 })) }
{
    if !is_six(position, spacing) {
        return Err(Refusal {
            condition: Condition::UnknownLayout,
            line: 0,
        });
    }
    Ok(layout_of(position, spacing))
}

// Where the codes of 0 and 1 stand in the table page, counted from cell 256.
pub const CODE_TABLE: u8 = 240;

// The code of a bit.
pub fn code_of(layout: Layout, bit: u8) -> u8
    ensures { result ≡ code layout bit }
{
    if bit == 0 { layout.zero } else { layout.one }
}
