// What the third program prints of the bytes on standard input: the verdict of the walk on the machine text that they are, from the
// sets of all images of bit states whose public places are 0.

#![tactic(auto)]

ghost use Rattle.std.specs.Prelude.{◌≡◌, [], ◌∷◌, suc, ◌+◌, ◌*◌, ◌<◌, length, set};
ghost use Rattle.std.specs.Prelude.{Ok};
ghost use Rattle.model.specs.Answers.{report, outcome};
ghost use Rattle.model.specs.Images.{image_at};
ghost use Rattle.model.specs.Layouts.{neighbours};
ghost use Rattle.model.specs.Limits.{line_width, max_lines, state_size};
ghost use Rattle.model.specs.Text.{fitted};
ghost use Rattle.sets.specs.Walk.{told, verdict_report};
ghost use Rattle.verdicts.specs.Verdicts.{verdict_budget, image_sets, sets_before, verdict_text, verdict_prints};

use lines::reader::read_lines;
use lines::shared::room;
use lines::{write_lines, write_refusal};
use model::{Condition, LINE_WIDTH, MAX_LINES, Refusal, STATE_SIZE};
use sets::{SETS_SIZE, Verdict};

// The most bytes of an input.
pub const INPUT_SIZE: usize = 262144;

// The budget of the walk.
const BUDGET: u16 = 65535;

// The most bytes of the line that is printed: `refused,`, and two numbers of at most five digits, each followed by a comma or the newline.
pub const LINE_BYTES: usize = 20;

// The bytes of a set of the walk.
const SET_WIDTH: usize = SETS_SIZE / STATE_SIZE;

// Room for every line.
const LINES_ROOM: usize = LINE_WIDTH * MAX_LINES;

// The first three bytes of a set.
fn put_bytes(sets: &mut [u8], at: usize, count: u8, first: u8, second: u8)
    requires { at + 2 < length sets.old }
    ensures { sets.new ≡ set (set (set sets.old at count) (at + 1) first) (at + 2) second }
{
    sets[at] = count;
    sets[at + 1] = first;
    sets[at + 2] = second;
}

// The set of a place: both codes where it is sensitive, else the value that the image of the all-zero state has there.
fn put_values(sets: &mut [u8], i: usize, value: u8)
    requires { (i < state_size) × (sets.old ≡ sets_before i) × (value ≡ image_at neighbours i 0) }
    ensures { sets.new ≡ sets_before (suc i) }
{
    let at = SET_WIDTH * i;
    if coding::is_sensitive(coding::kind_at(i)) {
        let one = coding::code_of(coding::layout_of(0, 0), 1);
        put_bytes(sets, at, 2, one, value);
    } else {
        put_bytes(sets, at, 1, value, 0);
    }
}

// The sets of all places.
fn write_sets(sets: &mut [u8])
    requires { sets.old ≡ sets_before 0 }
    ensures { sets.new ≡ image_sets }
{
    let bits = [0u8; STATE_SIZE];
    let mut image = [0u8; STATE_SIZE];
    // The all-zero state has an image: nothing is refused.
    let _ = images::to_image(0, 0, &bits, &mut image);
    for i in 0..STATE_SIZE {
        put_values(sets, i, image[i]);
    }
}

// Writes the line of a verdict.
fn write_verdict(verdict: Verdict, out: &mut [u8]) -> Result<u32, Refusal>
    ensures { outcome (report result) (out.new ∷ []) ≡ fitted (verdict_text (told (Ok verdict))) out.old }
{
    match verdict {
        Verdict::Balanced { steps, .. } => write_lines(&[], b"balanced,", &[steps], out),
        Verdict::Spent { steps, .. } => write_lines(&[], b"spent,", &[steps], out),
        Verdict::Leak { line, .. } => write_lines(&[], b"leak,", &[line], out),
    }
}

// Walks a program, and writes the verdict.
fn write_judged(program: &[u16], out: &mut [u8]) -> Result<u32, Refusal>
    ensures { outcome (report result) (out.new ∷ []) ≡ fitted (verdict_text (verdict_report program.now image_sets verdict_budget)) out.old }
{
    let mut sets = [0u8; SETS_SIZE];
    write_sets(&mut sets);
    match walk::judge(program, &sets, BUDGET) {
        Ok(verdict) => write_verdict(verdict, out),
        Err(refusal) => write_refusal(Err(refusal), out),
    }
}

// The text of the verdict, or of a refusal.
pub fn print_verdict(input: &[u8], out: &mut [u8]) -> Result<u32, Refusal>
    ensures { outcome (report result) (out.new ∷ []) ≡ fitted (verdict_prints input.now) out.old }
{
    if INPUT_SIZE < input.len() {
        let refusal = Refusal {
            condition: Condition::StoreFull,
            line: 0,
        };
        return write_refusal(Err(refusal), out);
    }
    let mut store = room::<LINES_ROOM>();
    let got = read_lines(input, &mut store);
    let Ok(n) = got else {
        return write_refusal(got, out);
    };
    let end = LINE_WIDTH * (n as usize);
    write_judged(&store[..end], out)
}
