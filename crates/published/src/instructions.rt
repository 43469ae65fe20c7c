// An instruction of the published text: its parts read to stored numbers, or the condition that holds.
ghost use Rattle.std.specs.Prelude.{◌≡◌, true, [], ℕ, ◌<◌, ◌≤◌, IfSome};
ghost use Rattle.model.specs.Lines.{fills};
ghost use Rattle.model.specs.Stored.{opcode_of, opcodes};
ghost use Rattle.published.specs.Published.{words, mark_for, or_missing, operands_parsed, parts_parsed, instruction_parsed};
ghost use Rattle.published.specs.Reading.{trimmed, parts_there};
ghost use Rattle.published.specs.Table.{Low};
ghost use Rattle.published.specs.Passes.{labels_of, target_number, meaning};

use crate::labels::{Labels, all_alphanumeric, bucket};
use crate::operands::operand;
use crate::parts::{after, word};
use model::Condition;
use text::fields::{no_literal, opcode};

// The stored numbers of an instruction; its target, where it has one, is the line that a label names.
#[derive(Clone, Copy)]
pub struct Instruction {
    pub mark: u16,
    pub opcode: u16,
    pub destination: u16,
    pub first: u16,
    pub second: u16,
    pub target: Option<usize>,
}

// The mark is s exactly where the destination is sensitive.
fn mark_for(d: u16) -> u16
    ensures { result ≡ mark_for d }
{
    u16::from(coding::is_sensitive(marks::kind_of(d)))
}

// The operands, then the mark check. It is made without the target: a label names no line above the count.
fn operands(
    o: u16,
    d: &[u8],
    a: &[u8],
    b: &[u8],
    target: Option<usize>,
) -> Result<Instruction, Condition>
    ensures { (n : ℕ) → IfSome target (λ line. line ≤ n) → meaning result ≡ operands_parsed n o d.now a.now b.now (target_number target) }
{
    let destination = no_literal(operand(d)).ok_or(Condition::NoCounterpart)?;
    let first = operand(a).ok_or(Condition::NoCounterpart)?;
    let second = operand(b).ok_or(Condition::NoCounterpart)?;
    let mark = mark_for(destination);
    if marks::mark_fault(0, mark, o, destination, first, second, 0).is_some() {
        return Err(Condition::NoCounterpart);
    }
    Ok(Instruction {
        mark,
        opcode: o,
        destination,
        first,
        second,
        target,
    })
}

// An instruction with a target: 25 where it is not of letters and digits, 24 where no label has this name.
fn targeted(
    labels: &Labels,
    o: u16,
    a: &[u8],
    b: &[u8],
    name: &[u8],
) -> Result<Instruction, Condition>
    ensures { (n : ℕ) → Low n (labels_of labels.now) → meaning result ≡ or_missing true (labels_of labels.now) name.now (operands_parsed n o [] a.now b.now) }
{
    if !all_alphanumeric(name) {
        return Err(Condition::NoCounterpart);
    }
    let line = labels
        .find(name, bucket(name))
        .ok_or(Condition::WrongLabel)?;
    operands(o, &name[..0], a, b, Some(line))
}

// How many of four parts are there.
fn part_count(a: usize, b: usize, c: usize, d: usize) -> usize
    ensures { result ≡ parts_there a b c d }
{
    if a == 0 {
        0
    } else if b == 0 {
        1
    } else if c == 0 {
        2
    } else if d == 0 {
        3
    } else {
        4
    }
}

// The parts after an opcode.
fn filled(labels: &Labels, o: u16, s: &[u8]) -> Result<Instruction, Condition>
    requires { (o < opcodes) × (trimmed s.now ≡ s.now) }
    ensures { (n : ℕ) → Low n (labels_of labels.now) → meaning result ≡ parts_parsed n (labels_of labels.now) o (fills (opcode_of o)) (words s.now) }
{
    let i = word(s);
    let s2 = after(s, i);
    let j = word(s2);
    let s3 = after(s2, j);
    let k = word(s3);
    let s4 = after(s3, k);
    let empty = &s[..0];
    match (o, part_count(s.len(), s2.len(), s3.len(), s4.len())) {
        (0, 0) => operands(o, empty, empty, empty, None),
        (1, 1) => targeted(labels, o, empty, empty, &s[..i]),
        (2..4, 2) => operands(o, &s[..i], &s2[..j], empty, None),
        (4..11, 3) => operands(o, &s[..i], &s2[..j], &s3[..k], None),
        (11.., 3) => targeted(labels, o, &s[..i], &s2[..j], &s3[..k]),
        _ => Err(Condition::NoCounterpart),
    }
}

// The instruction that begins a line's rest: its opcode, then its parts.
pub(crate) fn parse(labels: &Labels, s: &[u8]) -> Result<Instruction, Condition>
    requires { trimmed s.now ≡ s.now }
    ensures { (n : ℕ) → Low n (labels_of labels.now) → meaning result ≡ instruction_parsed n (labels_of labels.now) (words s.now) }
{
    // A line that is not counted.
    if s.len() == 0 {
        return Err(Condition::NoCounterpart);
    }
    let i = word(s);
    let o = opcode(&s[..i]).ok_or(Condition::NoCounterpart)?;
    filled(labels, o, after(s, i))
}
