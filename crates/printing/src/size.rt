// How long the spelling of stored numbers is, so that a text's length is known before a byte is written.
// Counted by functions of its own: `print` into an empty part gives the length too, but writing into a store that just fits then takes 1.46 times as long.
ghost use Rattle.std.specs.Prelude.{◌≡◌, ℕ, ◌+◌, ◌/◌, ◌%◌, ◌<◌, ◌≤◌, length};
ghost use mathlib.Core.List.{flat_map};
ghost use Rattle.model.specs.Limits.{max_lines};
ghost use Rattle.model.specs.Stored.{operand_of, target_of, line_of, lines_from};
ghost use Rattle.model.specs.Text.{decimal, spell_operand, spell_target, spell_line};

use coding::{CELLS, LITERALS, PUBLICS, REGISTERS, SENSITIVES, TABLES, numbers_at};

// The digits of a number.
fn digit_count(n: u16) -> usize
    ensures { (result ≡ length (decimal n)) × (result ≤ 5) }
{
    match n {
        0..10 => 1,
        10..100 => 2,
        100..1000 => 3,
        1000..10000 => 4,
        _ => 5,
    }
}

// The bytes of an indirect operand: a sign, the base and the offset, of w numbers to a base.
fn indirect_size(n: u16, w: u16) -> usize
    requires { 0 < w }
    ensures { (result ≡ 3 + length (decimal (n / w)) + length (decimal (n % w))) × (result ≤ 13) }
{
    3 + digit_count(n / w) + digit_count(n % w)
}

// An operand's bytes.
fn operand_size(k: u16) -> usize
    ensures { (result ≡ length (spell_operand (operand_of k))) × (result ≤ 13) }
{
    match k {
        LITERALS..REGISTERS => 1 + digit_count(k - LITERALS),
        REGISTERS..CELLS => 1 + digit_count(k - REGISTERS),
        CELLS..PUBLICS => 1 + digit_count(k - CELLS),
        PUBLICS..SENSITIVES => indirect_size(k - PUBLICS, 128),
        SENSITIVES..TABLES => indirect_size(k - SENSITIVES, 128),
        TABLES.. => indirect_size(k - TABLES, 256),
        _ => 0,
    }
}

// A target's bytes.
fn target_size(k: u16) -> usize
    ensures { (result ≡ length (spell_target (target_of k))) × (result ≤ 5) }
{
    if k == 0 {
        return 0;
    }
    digit_count(k - 1)
}

// A line's bytes, whatever its mark and opcode: these have four, and five commas and a newline six.
fn line_size(d: u16, a: u16, b: u16, t: u16) -> usize
    ensures { ((m o : ℕ) → result ≡ length (spell_line (line_of m o d a b t))) × (result ≤ 54) }
{
    10 + operand_size(d) + operand_size(a) + operand_size(b) + target_size(t)
}

// The bytes of the first n lines.
pub(crate) fn text_size(program: &[u16], n: usize) -> usize
    requires { n ≤ max_lines }
    ensures { result ≡ length (flat_map spell_line (lines_from program.now 0 n)) }
{
    let mut size: usize = 0;
    for i in 0..n {
        let l = numbers_at(program, i);
        size += line_size(l[2], l[3], l[4], l[5]);
    }
    size
}
