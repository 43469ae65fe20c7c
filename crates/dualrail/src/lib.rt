// The entry points for C and Rust: numbers and slices, a slice as a pointer and then a length, a table of fixed length as a pointer alone, an
// answer as one u64 (specs/Packing).
// Nothing here allocates, and an empty slice may have any pointer. include/dualrail.h declares these functions.

#![tactic(auto)]

ghost use Rattle.std.specs.Prelude.{◌≡◌, [], ◌∷◌, ◌<◌, Ok};
ghost use Rattle.model.specs.Answers.{refused, number_of, report, ended, run_report};
ghost use Rattle.model.specs.Text.{read_outcome, write_outcome};
ghost use Rattle.model.specs.Marks.{mark_check};
ghost use Rattle.model.specs.Expansion.{expand_outcome};
ghost use Rattle.model.specs.Images.{to_image_outcome, from_image_outcome};
ghost use Rattle.model.specs.Run.{run_outcome};
ghost use Rattle.images.specs.Moving.{move_outcome};
ghost use Rattle.sets.specs.Walk.{told, verdict_report};
ghost use Rattle.published.specs.Published.{take_in_outcome, send_out_outcome};
ghost use Rattle.watch.specs.Watches.{watch_outcome};
ghost use Rattle.nibble.specs.Nibbles.{codeword, decoded, xor_table, result_of, pair_result, map_outcome};
ghost use Rattle.codewords.specs.Codewords.{choose_outcome};
ghost use Rattle.dualrail.specs.Packing.{placed, packed, packed_run};

use codewords::SET;
use model::{Ending, Refusal};
use nibble::{PAIRS, WORDS};
use sets::Verdict;
use watch::Watch;

// A line as far as 32 bits hold it.
#[tactic(auto, unfolding(crate::specs::Packing::placed))]
fn place(line: usize) -> u64
    ensures { (result ≡ placed line) × (result < 4294967296) }
{
    if line < 4294967295 {
        return line as u64;
    }
    4294967295
}

fn pack_refusal(refusal: Refusal<usize>) -> u64
    ensures { result ≡ packed (refused (number_of refusal.condition) refusal.line) }
{
    (u8::from(refusal.condition) as u64) * 4294967296 + place(refusal.line)
}

// A refusal of a run and of a walk.
fn pack_run_refusal(refusal: Refusal) -> u64
    ensures { result ≡ packed_run (refused (number_of refusal.condition) refusal.line) }
{
    (u8::from(refusal.condition) as u64) * 281474976710656 + (refusal.line as u64)
}

fn pack(answer: Result<u32, Refusal>) -> u64
    ensures { result ≡ packed (report answer) }
{
    match answer {
        Ok(n) => n as u64,
        Err(refusal) => pack_refusal(refusal.into()),
    }
}

fn pack_conversion(answer: Result<usize, Refusal<usize>>) -> u64
    ensures { result ≡ packed (report answer) }
{
    match answer {
        Ok(n) => n as u64,
        Err(refusal) => pack_refusal(refusal),
    }
}

fn pack_ending(ending: Ending) -> u64
    ensures { result ≡ packed_run (ended ending) }
{
    match ending {
        Ending::Halted { counter, steps } => (counter as u64) * 65536 + (steps as u64),
        Ending::Spent { counter, steps } => {
            4294967296 + (counter as u64) * 65536 + (steps as u64)
        }
    }
}

fn pack_run(answer: Result<Ending, Refusal>) -> u64
    ensures { result ≡ packed_run (run_report answer) }
{
    match answer {
        Ok(ending) => pack_ending(ending),
        Err(refusal) => pack_run_refusal(refusal),
    }
}

#[unsafe(no_mangle)]
pub extern "C" fn dualrail_read(text: &[u8], store: &mut [u16]) -> u64
    ensures answer { result ≡ packed (read_outcome text.now store.old).answer }
    ensures stores { store.new ∷ [] ≡ (read_outcome text.now store.old).stores }
{
    pack(text::read(text, store))
}

#[unsafe(no_mangle)]
pub extern "C" fn dualrail_write(program: &[u16], out: &mut [u8]) -> u64
    ensures answer { result ≡ packed (write_outcome program.now out.old).answer }
    ensures stores { out.new ∷ [] ≡ (write_outcome program.now out.old).stores }
{
    pack(printing::write(program, out))
}

#[unsafe(no_mangle)]
pub extern "C" fn dualrail_check(program: &[u16]) -> u64
    ensures { result ≡ packed (mark_check program.now) }
{
    pack(marks::check(program))
}

#[unsafe(no_mangle)]
pub extern "C" fn dualrail_expand(
    position: u8,
    spacing: u8,
    program: &[u16],
    out: &mut [u16],
) -> u64
    ensures answer { result ≡ packed (expand_outcome position spacing program.now out.old).answer }
    ensures stores { out.new ∷ [] ≡ (expand_outcome position spacing program.now out.old).stores }
{
    pack(expander::expand(position, spacing, program, out))
}

#[unsafe(no_mangle)]
pub extern "C" fn dualrail_to_image(position: u8, spacing: u8, bits: &[u8], image: &mut [u8]) -> u64
    ensures answer { result ≡ packed (to_image_outcome position spacing bits.now image.old).answer }
    ensures stores { image.new ∷ [] ≡ (to_image_outcome position spacing bits.now image.old).stores }
{
    pack(images::to_image(position, spacing, bits, image))
}

#[unsafe(no_mangle)]
pub extern "C" fn dualrail_from_image(
    position: u8,
    spacing: u8,
    image: &[u8],
    bits: &mut [u8],
) -> u64
    ensures answer { result ≡ packed (from_image_outcome position spacing image.now bits.old).answer }
    ensures stores { bits.new ∷ [] ≡ (from_image_outcome position spacing image.now bits.old).stores }
{
    pack(images::from_image(position, spacing, image, bits))
}

#[unsafe(no_mangle)]
pub extern "C" fn dualrail_move_image(
    old_position: u8,
    old_spacing: u8,
    new_position: u8,
    new_spacing: u8,
    from: &[u8],
    into: &mut [u8],
) -> u64
    ensures answer { result ≡ packed (move_outcome old_position old_spacing new_position new_spacing from.now into.old).answer }
    ensures stores { into.new ∷ [] ≡ (move_outcome old_position old_spacing new_position new_spacing from.now into.old).stores }
{
    pack(images::move_image(
        old_position,
        old_spacing,
        new_position,
        new_spacing,
        from,
        into,
    ))
}

#[unsafe(no_mangle)]
pub extern "C" fn dualrail_take_in(text: &[u8], out: &mut [u8]) -> u64
    ensures answer { result ≡ packed (take_in_outcome text.now out.old).answer }
    ensures stores { out.new ∷ [] ≡ (take_in_outcome text.now out.old).stores }
{
    pack_conversion(published::take_in(text, out))
}

#[unsafe(no_mangle)]
pub extern "C" fn dualrail_send_out(text: &[u8], out: &mut [u8]) -> u64
    ensures answer { result ≡ packed (send_out_outcome text.now out.old).answer }
    ensures stores { out.new ∷ [] ≡ (send_out_outcome text.now out.old).stores }
{
    pack_conversion(published::send_out(text, out))
}

#[unsafe(no_mangle)]
pub extern "C" fn dualrail_run(
    program: &[u16],
    start: u16,
    budget: u16,
    state: &mut [u8],
    trace: &mut [u16],
) -> u64
    ensures answer { result ≡ packed_run (run_outcome program.now start budget state.old trace.old).answer }
    ensures stores { state.new ∷ trace.new ∷ [] ≡ (run_outcome program.now start budget state.old trace.old).stores }
{
    pack_run(machine::run(program, start, budget, state, trace))
}

// The watches cross as they are: a slice of C structs.
#[unsafe(no_mangle)]
pub extern "C" fn dualrail_run_watched(
    program: &[u16],
    start: u16,
    budget: u16,
    state: &mut [u8],
    trace: &mut [u16],
    watches: &mut [Watch],
) -> u64
    ensures { (result ≡ packed_run (watch_outcome program.now start budget state.old trace.old watches.old).run.answer) × (state.new ∷ trace.new ∷ [] ≡ (watch_outcome program.now start budget state.old trace.old watches.old).run.stores) × (watches.new ≡ (watch_outcome program.now start budget state.old trace.old watches.old).watches) }
{
    pack_run(watch::run_watched(program, start, budget, state, trace, watches))
}

fn pack_verdict(verdict: Verdict) -> u64
    ensures { result ≡ packed_run (told (Ok verdict)) }
{
    match verdict {
        Verdict::Balanced { counter, steps } => (counter as u64) * 65536 + (steps as u64),
        Verdict::Spent { counter, steps } => {
            4294967296 + (counter as u64) * 65536 + (steps as u64)
        }
        Verdict::Leak { line, steps } => 8589934592 + (line as u64) * 65536 + (steps as u64),
    }
}

fn pack_judged(answer: Result<Verdict, Refusal>) -> u64
    ensures { result ≡ packed_run (told answer) }
{
    match answer {
        Ok(verdict) => pack_verdict(verdict),
        Err(refusal) => pack_run_refusal(refusal),
    }
}

#[unsafe(no_mangle)]
pub extern "C" fn dualrail_judge(program: &[u16], sets: &[u8], budget: u16) -> u64
    ensures { result ≡ packed_run (verdict_report program.now sets.now budget) }
{
    pack_judged(walk::judge(program, sets, budget))
}

// The nibble engine. A table that is handed back by value is written into a lent one of its length.

#[unsafe(no_mangle)]
pub extern "C" fn dualrail_encode(n: u8) -> u8
    ensures { result ≡ codeword n }
{
    nibble::encode(n)
}

#[unsafe(no_mangle)]
pub extern "C" fn dualrail_decode(c: u8) -> u8
    ensures { result ≡ decoded c }
{
    nibble::decode(c)
}

#[unsafe(no_mangle)]
pub extern "C" fn dualrail_xor(a: u8, b: u8) -> u8
    ensures { result ≡ pair_result xor_table a b }
{
    nibble::xor(a, b)
}

#[unsafe(no_mangle)]
pub extern "C" fn dualrail_xor_table(table: &mut [u8; PAIRS])
    ensures { table.new ≡ xor_table }
{
    *table = nibble::xor_table();
}

#[unsafe(no_mangle)]
pub extern "C" fn dualrail_map_table(map: &[u8], table: &mut [u8; WORDS]) -> u64
    ensures answer { result ≡ packed (map_outcome map.now).answer }
    ensures stores { table.new ∷ [] ≡ (map_outcome map.now).stores }
{
    pack(nibble::map_table_into(map, table))
}

#[unsafe(no_mangle)]
pub extern "C" fn dualrail_look_up(table: &[u8; WORDS], c: u8) -> u8
    ensures { result ≡ result_of table.now c }
{
    nibble::look_up(table, c)
}

#[unsafe(no_mangle)]
pub extern "C" fn dualrail_look_up_pair(table: &[u8; PAIRS], a: u8, b: u8) -> u8
    ensures { result ≡ pair_result table.now a b }
{
    nibble::look_up_pair(table, a, b)
}

// Codewords from measured bits. The set is written as a table is.
#[unsafe(no_mangle)]
pub extern "C" fn dualrail_choose(
    bits: u8,
    ones: u8,
    size: u8,
    weights: &[i16],
    set: &mut [u8; SET],
) -> u64
    ensures answer { result ≡ packed (choose_outcome bits ones size weights.now).answer }
    ensures stores { set.new ∷ [] ≡ (choose_outcome bits ones size weights.now).stores }
{
    let chosen = codewords::choose(bits, ones, size, weights);
    let words = chosen.set;
    *set = words;
    pack(chosen.answer)
}
