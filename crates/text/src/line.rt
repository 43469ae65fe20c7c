// A line of text: its six fields read to stored numbers, or the number of the condition that holds.
ghost use Rattle.std.specs.Prelude.{◌≡◌, length};
ghost use Rattle.model.specs.Stored.{parsed};
ghost use Rattle.model.specs.Text.{newline, up_to, mark_field, opcode_field, operand_field, target_field, parsed_text, front_line};
ghost use Rattle.text.specs.Lines.{meaning};

use crate::Stored;
use crate::cut::{beyond, count, find};
use crate::fields::{destination, mark, opcode, operand, target};
use model::Condition;

// The first bytes of a line among which its newline must be.
pub(crate) const LINE_REACH: usize = 41;

// The six fields: 3 mark, 4 opcode, 5 which fields are filled, 6 operands and target.
fn fields(m: &[u8], o: &[u8], d: &[u8], a: &[u8], b: &[u8], t: &[u8]) -> Result<Stored, Condition>
    ensures { meaning result ≡ parsed (mark_field m.now) (opcode_field o.now) (operand_field d.now) (operand_field a.now) (operand_field b.now) (target_field t.now) }
{
    let mark = mark(m).ok_or(Condition::UnknownMark)?;
    let opcode = opcode(o).ok_or(Condition::UnknownOpcode)?;
    if !coding::is_shaped(opcode, 0 < d.len(), 0 < a.len(), 0 < b.len(), 0 < t.len()) {
        return Err(Condition::WrongFields);
    }
    let destination = destination(d).ok_or(Condition::WrongOperand)?;
    let first = operand(a).ok_or(Condition::WrongOperand)?;
    let second = operand(b).ok_or(Condition::WrongOperand)?;
    let target = target(t).ok_or(Condition::WrongOperand)?;
    Ok(Stored {
        mark,
        opcode,
        destination,
        first,
        second,
        target,
    })
}

// A line without its newline: 2 not five commas, then 3 to 6.
fn parse(s: &[u8]) -> Result<Stored, Condition>
    ensures { meaning result ≡ parsed_text s.now }
{
    if count(s, b',') != 5 {
        return Err(Condition::NotFiveCommas);
    }
    let n = find(s, b',');
    let s1 = beyond(s, n);
    let n1 = find(s1, b',');
    let s2 = beyond(s1, n1);
    let n2 = find(s2, b',');
    let s3 = beyond(s2, n2);
    let n3 = find(s3, b',');
    let s4 = beyond(s3, n3);
    let n4 = find(s4, b',');
    let s5 = beyond(s4, n4);
    fields(&s[..n], &s1[..n1], &s2[..n2], &s3[..n3], &s4[..n4], s5)
}

// The line at the front of a text with n bytes before its first newline: 1 no newline in its first 41 bytes, or none at all.
pub(crate) fn front(text: &[u8], n: usize) -> Result<Stored, Condition>
    requires { n ≡ length (up_to newline text.now) }
    ensures { meaning result ≡ front_line text.now }
{
    if LINE_REACH <= n || text.len() <= n {
        return Err(Condition::NoNewline);
    }
    parse(&text[..n])
}
