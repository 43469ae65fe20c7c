// How long the macros are: the lines that a line becomes, counted by its numbers.
ghost use Rattle.std.specs.Prelude.{◌≡◌, ℕ, length};
ghost use Rattle.model.specs.declared.Layout.{Layout};
ghost use Rattle.model.specs.declared.Operand.{Operand};
ghost use Rattle.model.specs.Stored.{opcode_of, operand_of, line_at};
ghost use Rattle.model.specs.Expansion.{coded, load, scale, lookup, macro, size};

use marks::names_public;
use model::Layout;

// The lines that load an argument of a marked line: two more where a public place's bit is coded.
fn load_size(a: u16) -> u16
    ensures { (L : Layout) (n : ℕ) → result ≡ length (load n (coded L (operand_of a))) }
{
    if names_public(a) { 4 } else { 2 }
}

// The lines that mask the first code and shift it.
fn scale_size(layout: Layout) -> u16
    ensures { result ≡ length (scale layout) }
{
    if layout.spaced { 2 } else { 3 }
}

// and, orr, xor, whichever their table and destination are: the loads, the scaling, two lines to combine, three to fetch and two to write back.
fn lookup_size(layout: Layout, a: u16, b: u16) -> u16
    ensures { (t : ℕ) (d : Operand) → result ≡ length (lookup layout t d (coded layout (operand_of a)) (coded layout (operand_of b))) }
{
    load_size(a) + scale_size(layout) + load_size(b) + 7
}

// The lines of the macro of an opcode's number with the arguments that these become, whatever its destination is. By the number, since that is
// told sooner than the opcode. Of not a load, the flip and two lines to write back, of mov a load and those two; an opcode without a macro gives none.
fn macro_size(layout: Layout, o: u16, a: u16, b: u16) -> u16
    ensures { (d : Operand) → result ≡ length (macro layout (opcode_of o) d (coded layout (operand_of a)) (coded layout (operand_of b))) }
{
    match o {
        coding::NOT => load_size(a) + 3,
        coding::MOV => load_size(a) + 2,
        coding::AND..=coding::XOR => lookup_size(layout, a, b),
        _ => 0,
    }
}

// The lines of the part of line i.
pub fn size_at(layout: Layout, program: &[u16], i: usize) -> u16
    ensures { result ≡ size layout (line_at program.now i) }
{
    let [mark, o, _, a, b, _] = coding::numbers_at(program, i);
    if mark == 0 {
        1
    } else {
        macro_size(layout, o, a, b)
    }
}
