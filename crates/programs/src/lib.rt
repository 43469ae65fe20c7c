// 'The two programs' of document 01: what they print of the bytes on standard input, written to a lent store, the expansion of the
// program that the bytes are, and the trace of its run. The crate `lines` reads the lines of a text and prints lines of numbers.

#![tactic(auto)]

ghost use Rattle.std.specs.Prelude.{◌≡◌, [], ◌∷◌, ◌*◌, ◌≤◌, length};
ghost use Rattle.model.specs.Answers.{report, outcome, counted};
ghost use Rattle.model.specs.Limits.{line_width, row_width};
ghost use Rattle.model.specs.Stored.{line_count, program_check};
ghost use Rattle.model.specs.Programs.{input_size, expand_prints, trace_prints, trace_budget};
ghost use Rattle.model.specs.Text.{fitted};
ghost use Rattle.programs.specs.Loading.{load_outcome, most_numbers};
ghost use Rattle.programs.specs.Running.{run_text, ended_text};

use lines::reader::read_lines;
use lines::shared::room;
use lines::{write_lines, write_refusal};
use model::{Condition, Ending, LINE_WIDTH, LONGEST, MAX_ACCEPTED, ROW_WIDTH, Refusal, STATE_SIZE};

// The most bytes of an input.
pub const INPUT_SIZE: usize = 4096;

// The budget of the run.
const TRACE_BUDGET: u16 = 1000;

// The most bytes that the programs print: lines of the longest; rows of numbers of at most five digits, each followed by a comma or
// the newline, and a last line of at most 13.
pub const EXPANSION_BYTES: usize = printing::LONGEST_LINE * LONGEST * MAX_ACCEPTED;

pub const TRACE_BYTES: usize = 6 * ROW_WIDTH * (TRACE_BUDGET as usize) + 13;

// Room for the lines of every input: each line takes a byte or more.
const STORE_ROOM: usize = LINE_WIDTH * INPUT_SIZE;

// Room for every expansion.
const LISTING_ROOM: usize = LINE_WIDTH * LONGEST * MAX_ACCEPTED;

// Room for the rows of every run.
const TRACE_ROOM: usize = ROW_WIDTH * (TRACE_BUDGET as usize);

// Reads the text of a program and expands it.
fn load(input: &[u8], listing: &mut [u16]) -> Result<u32, Refusal>
    requires { most_numbers ≤ length listing.old }
    ensures { outcome (report result) (listing.new ∷ []) ≡ load_outcome input.now listing.old }
{
    if INPUT_SIZE < input.len() {
        return Err(Refusal {
            condition: Condition::StoreFull,
            line: 0,
        });
    }
    let mut store = room::<STORE_ROOM>();
    let n = read_lines(input, &mut store)?;
    let end = LINE_WIDTH * (n as usize);
    expander::expand(0, 0, &store[..end], listing)
}

// Writes the rows of the steps done, and the line of the ending.
fn write_ended(trace: &[u16], word: &[u8], steps: u16, out: &mut [u8]) -> Result<u32, Refusal>
    requires { (length trace.now ≤ row_width * trace_budget) × (row_width * steps ≤ length trace.now) × (length word.now ≤ 7) }
    ensures { outcome (report result) (out.new ∷ []) ≡ fitted (ended_text trace.now word.now steps) out.old }
{
    let end = ROW_WIDTH * (steps as usize);
    write_lines(&trace[..end], word, &[steps], out)
}

// Runs a program from the image of the all-zero state, and writes its trace.
fn write_run(program: &[u16], out: &mut [u8]) -> Result<u32, Refusal>
    requires { program_check program.now ≡ counted (line_count program.now) }
    ensures { outcome (report result) (out.new ∷ []) ≡ fitted (run_text program.now) out.old }
{
    let bits = [0u8; STATE_SIZE];
    let mut state = [0u8; STATE_SIZE];
    // The all-zero state has an image: nothing is refused.
    let _ = images::to_image(0, 0, &bits, &mut state);
    let mut trace = room::<TRACE_ROOM>();
    // A run with room for its trace is not refused.
    let ending = machine::run(program, 0, TRACE_BUDGET, &mut state, &mut trace)?;
    match ending {
        Ending::Halted { counter: _, steps } => write_ended(&trace, b"halted,", steps, out),
        Ending::Spent { counter: _, steps } => write_ended(&trace, b"spent,", steps, out),
    }
}

// The text of the expansion, or of a refusal.
pub fn print_expansion(input: &[u8], out: &mut [u8]) -> Result<u32, Refusal>
    ensures { outcome (report result) (out.new ∷ []) ≡ fitted (expand_prints input.now) out.old }
{
    let mut listing = room::<LISTING_ROOM>();
    let loaded = load(input, &mut listing);
    let Ok(n) = loaded else {
        return write_refusal(loaded, out);
    };
    let end = LINE_WIDTH * (n as usize);
    printing::write(&listing[..end], out)
}

// The text of the trace, or of a refusal. It is not one function with the above: they differ in what they call and in what that asks for, so that a
// generic one would have a contract longer than both bodies.
pub fn print_trace(input: &[u8], out: &mut [u8]) -> Result<u32, Refusal>
    ensures { outcome (report result) (out.new ∷ []) ≡ fitted (trace_prints input.now) out.old }
{
    let mut listing = room::<LISTING_ROOM>();
    let loaded = load(input, &mut listing);
    let Ok(n) = loaded else {
        return write_refusal(loaded, out);
    };
    let end = LINE_WIDTH * (n as usize);
    write_run(&listing[..end], out)
}
