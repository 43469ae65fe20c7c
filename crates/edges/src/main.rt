// The section Edges of document 01, the walk on sets of request 01, the shift counts of request 02, the public bits of request 03, the
// layouts of request 04, the listings of jumps of request 05, the moves of request 06, the address bus of request 07, the published spelling of
// request 08, the watches of request 09, the nibble engine of request 10, the codewords of request 11, and an input for every refusal: runs the
// cases of the file `stdin` beside src/, prints `ok` or `WRONG` and the name of each, and the gate holds that to the file `stdout`. The cases
// are data, read beside the paper, and more cost no proof; notation.rt has how they are written. All here is proved safe and ending; that the
// answers are right is the contract of what it calls.

#![tactic(auto)]

ghost use Rattle.std.specs.Prelude.{◌≤◌, length};

use crate::notation::{
    BEFORE, CALL, LARGEST, NAME, PROGRAM, behind, decimal, field, first, is_number, is_right,
    is_seen, is_text, is_verdict, put, put_sets, put_weights, size, watched, word,
};
use model::{LINE_WIDTH, MAX_LINES, ROW_WIDTH, Refusal, STATE_SIZE};
use std::io::{self, Read, Write};

mod notation;

// A state with a byte too many.
const STATE_ROOM: usize = STATE_SIZE + 1;

// A program with a line too many.
const PROGRAM_ROOM: usize = LINE_WIDTH * (MAX_LINES + 1);

// The text of the longest program of lines `u,nop,,,,`, ten bytes each with the newline, and a byte too many.
const BYTE_ROOM: usize = 10 * MAX_LINES + 1;

// The cases, and room for more.
const INPUT_ROOM: usize = 262144;

// As many weights as a word has bits, and one too many.
const WEIGHT_ROOM: usize = 9;

// The trace of the largest budget.
const NUMBER_ROOM: usize = ROW_WIDTH * LARGEST;

// ---- what an answer counts

// The count of lines, where it is at most `most`; 0 for all else.
fn count_of(answer: Result<u32, Refusal>, most: usize) -> usize
    ensures { result ≤ most }
{
    let Ok(n) = answer else {
        return 0;
    };
    let count = n as usize;
    if count <= most { count } else { 0 }
}

// The lines that an answer counts.
fn lines_of(store: &[u16], answer: Result<u32, Refusal>) -> &[u16] {
    let lines = count_of(answer, store.len() / LINE_WIDTH);
    &store[..LINE_WIDTH * lines]
}

// ---- the calls, each with whether it came out as its case says

fn reads(line: &[u8], input: &[u8], store: &mut [u16]) -> bool {
    let room = size(line, 0, store.len());
    let answer = text::read(input, &mut store[..room]);
    is_right(line, answer, b"", store)
}

// Reads the text of the program, of which the second number says how many bytes.
fn reads_long(line: &[u8], program: &[u16], bytes: &mut [u8], store: &mut [u16]) -> bool {
    let _ = printing::write(program, bytes);
    let end = size(line, 1, bytes.len());
    reads(line, &bytes[..end], store)
}

fn writes(line: &[u8], program: &[u16], bytes: &mut [u8]) -> bool {
    let room = size(line, 0, bytes.len());
    let answer = printing::write(program, &mut bytes[..room]);
    is_right(line, answer, bytes, &[]) && is_text(line, bytes)
}

fn checks(line: &[u8], program: &[u16]) -> bool {
    is_right(line, marks::check(program), b"", &[])
}

// The expansion is compared as text.
fn expands(line: &[u8], program: &[u16], bytes: &mut [u8], store: &mut [u16]) -> bool {
    let room = size(line, 0, store.len());
    let answer = expander::expand(
        behind(line, 1),
        behind(line, 2),
        program,
        &mut store[..room],
    );
    let _ = printing::write(lines_of(store, answer), bytes);
    is_right(line, answer, bytes, store) && is_text(line, bytes)
}

fn runs(line: &[u8], program: &[u16], state: &mut [u8], trace: &mut [u16]) -> bool {
    let start = size(line, 0, LARGEST) as u16;
    let budget = size(line, 1, LARGEST) as u16;
    let bytes = size(line, 2, state.len());
    let room = size(line, 3, trace.len());
    let answer = machine::run(
        program,
        start,
        budget,
        &mut state[..bytes],
        &mut trace[..room],
    );
    is_right(line, answer, state, trace)
}

// A run that watches the places behind the name of its call.
fn debugs(line: &[u8], program: &[u16], state: &mut [u8], trace: &mut [u16]) -> bool {
    let start = size(line, 0, LARGEST) as u16;
    let budget = size(line, 1, LARGEST) as u16;
    let bytes = size(line, 2, state.len());
    let room = size(line, 3, trace.len());
    let seen = watch::watch_places(
        program,
        start,
        budget,
        &mut state[..bytes],
        &mut trace[..room],
        watched(line),
    );
    is_right(line, seen.answer, state, trace) && is_seen(line, seen.watches)
}

// Each function that takes a program gives the answer, as it does for a program that it refuses.
fn all_refuse(
    line: &[u8],
    program: &[u16],
    state: &mut [u8],
    bytes: &mut [u8],
    numbers: &mut [u16],
) -> bool {
    let checked = checks(line, program);
    let written = writes(line, program, bytes);
    let expanded = expands(line, program, bytes, numbers);
    let run = runs(line, program, state, numbers);
    checked && written && expanded && run
}

// The image of so many bytes of a state, in so many bytes.
fn image_of(
    line: &[u8],
    bits: &[u8],
    from: usize,
    image: &mut [u8],
    to: usize,
) -> Result<u32, Refusal> {
    let n = from.min(bits.len());
    let m = to.min(image.len());
    images::to_image(
        behind(line, 1),
        behind(line, 2),
        &bits[..n],
        &mut image[..m],
    )
}

fn makes_image(line: &[u8], bits: &[u8], image: &mut [u8]) -> bool {
    let from = size(line, 0, STATE_ROOM);
    let to = size(line, 1, STATE_ROOM);
    let answer = image_of(line, bits, from, image, to);
    is_right(line, answer, image, &[])
}

// Runs from the image of the state.
fn runs_image(
    line: &[u8],
    program: &[u16],
    bits: &[u8],
    image: &mut [u8],
    trace: &mut [u16],
) -> bool {
    let _ = image_of(line, bits, STATE_SIZE, image, STATE_SIZE);
    runs(line, program, image, trace)
}

// The image of the state, after the changes that stand in the place of a program.
fn changed_image(line: &[u8], state: &[u8], image: &mut [u8]) {
    let _ = image_of(line, state, STATE_SIZE, image, STATE_SIZE);
    put(field(line, PROGRAM), image, &mut []);
}

fn makes_bits(line: &[u8], state: &[u8], bits: &mut [u8]) -> bool {
    let mut image = [0u8; STATE_ROOM];
    changed_image(line, state, &mut image);
    let from = size(line, 0, STATE_ROOM);
    let to = size(line, 1, bits.len());
    let answer = images::from_image(
        behind(line, 1),
        behind(line, 2),
        &image[..from],
        &mut bits[..to],
    );
    is_right(line, answer, bits, &[])
}

fn moves_image(line: &[u8], state: &[u8], moved: &mut [u8]) -> bool {
    let mut image = [0u8; STATE_ROOM];
    changed_image(line, state, &mut image);
    let from = size(line, 0, STATE_ROOM);
    let to = size(line, 1, moved.len());
    let answer = images::move_image(
        behind(line, 1),
        behind(line, 2),
        behind(line, 3),
        behind(line, 4),
        &image[..from],
        &mut moved[..to],
    );
    is_right(line, answer, moved, &[])
}

// The verdict on the program, from the sets of the case.
fn judges(line: &[u8], program: &[u16], sets: &mut [u8]) -> bool {
    put_sets(line, sets);
    let budget = size(line, 0, LARGEST) as u16;
    let bytes = size(line, 1, sets.len());
    is_verdict(line, walk::judge(program, &sets[..bytes], budget))
}

// What a conversion answers, where its numbers are those of an answer.
fn answer_of(converted: Result<usize, Refusal<usize>>) -> Result<u32, Refusal> {
    match converted {
        Ok(n) => Ok(n.min(BYTE_ROOM) as u32),
        Err(refusal) => Err(Refusal {
            condition: refusal.condition,
            line: refusal.line.min(LARGEST) as u16,
        }),
    }
}

// A published text taken in.
fn takes_in(line: &[u8], input: &[u8], bytes: &mut [u8]) -> bool {
    let room = size(line, 0, bytes.len());
    let answer = answer_of(published::take_in(input, &mut bytes[..room]));
    is_right(line, answer, bytes, &[]) && is_text(line, bytes)
}

// A text sent out.
fn sends_out(line: &[u8], input: &[u8], bytes: &mut [u8]) -> bool {
    let room = size(line, 0, bytes.len());
    let answer = answer_of(published::send_out(input, &mut bytes[..room]));
    is_right(line, answer, bytes, &[]) && is_text(line, bytes)
}

// ---- the nibble engine, by the word behind the call's name; a value is told as a count

fn gives(line: &[u8], value: u8) -> bool {
    is_right(line, Ok(value as u32), b"", &[])
}

fn makes_xor_table(line: &[u8]) -> bool {
    let table = nibble::xor_table();
    is_right(line, Ok(4096), &table, &[])
}

fn makes_map_table(line: &[u8], map: &[u8]) -> bool {
    let made = nibble::map_table(map);
    is_right(line, made.answer, &made.table, &[])
}

// Looks the operand up in the map's table.
fn looks_up(line: &[u8], map: &[u8]) -> bool {
    let made = nibble::map_table(map);
    gives(line, nibble::look_up(&made.table, behind(line, 2)))
}

// The map is what so many registers hold.
fn counts_nibbles(line: &[u8], state: &[u8]) -> bool {
    let values = size(line, 0, state.len());
    match first(word(line)) {
        b'e' => gives(line, nibble::encode(behind(line, 2))),
        b'd' => gives(line, nibble::decode(behind(line, 2))),
        b'x' => gives(line, nibble::xor(behind(line, 2), behind(line, 3))),
        b't' => makes_xor_table(line),
        b'm' => makes_map_table(line, &state[..values]),
        b'l' => looks_up(line, &state[..values]),
        _ => false,
    }
}

// ---- codewords, by the numbers behind the call's name: length, ones, size

fn finds_code(line: &[u8]) -> bool {
    let mut weights = [0i16; WEIGHT_ROOM];
    let n = put_weights(line, &mut weights);
    let chosen = codewords::choose(
        behind(line, 1),
        behind(line, 2),
        behind(line, 3),
        &weights[..n],
    );
    is_right(line, chosen.answer, &chosen.set, &[])
}

// ---- the cases

// Makes the call that a case names; the first letter tells them apart. The arrays come in with their sizes, so that a proof of their
// lengths does not have to count them.
fn comes_out_on(
    line: &[u8],
    program: &[u16],
    state: &mut [u8; STATE_ROOM],
    bytes: &mut [u8; BYTE_ROOM],
    numbers: &mut [u16; NUMBER_ROOM],
) -> bool {
    match first(field(line, CALL)) {
        b'r' => reads(line, field(line, PROGRAM), numbers),
        b'l' => reads_long(line, program, bytes, numbers),
        b'w' => writes(line, program, bytes),
        b'c' => checks(line, program),
        b'e' => expands(line, program, bytes, numbers),
        b'a' => all_refuse(line, program, state, bytes, numbers),
        b'm' => runs(line, program, state, numbers),
        b'd' => debugs(line, program, state, numbers),
        b't' => runs_image(line, program, state, bytes, numbers),
        b'i' => makes_image(line, state, bytes),
        b'b' => makes_bits(line, state, bytes),
        b'o' => moves_image(line, state, bytes),
        b'j' => judges(line, program, bytes),
        b'p' => takes_in(line, field(line, PROGRAM), bytes),
        b's' => sends_out(line, field(line, PROGRAM), bytes),
        b'n' => counts_nibbles(line, state),
        b'f' => finds_code(line),
        _ => false,
    }
}

// Sets what a case sets before its call, and gives the size of the program: its text is read, or the count of its numbers stands there.
fn prepare(line: &[u8], state: &mut [u8; STATE_ROOM], store: &mut [u16; PROGRAM_ROOM]) -> usize
    ensures { result ≤ length store.new }
{
    put(field(line, BEFORE), state, store);
    let program = field(line, PROGRAM);
    if is_number(program) {
        return decimal(program).min(PROGRAM_ROOM);
    }
    let answer = text::read(program, store);
    LINE_WIDTH * count_of(answer, PROGRAM_ROOM / LINE_WIDTH)
}

// What a call is lent to fill holds 9, so that what it leaves can be told.
fn comes_out(line: &[u8]) -> bool {
    let mut program = [0u16; PROGRAM_ROOM];
    let mut state = [0u8; STATE_ROOM];
    let end = prepare(line, &mut state, &mut program);
    comes_out_on(
        line,
        &program[..end],
        &mut state,
        &mut [9u8; BYTE_ROOM],
        &mut [9u16; NUMBER_ROOM],
    )
}

// Runs a case, and prints how it came out and its name. A line with no call is a remark.
fn tell(out: &mut impl Write, line: &[u8]) -> io::Result<()> {
    if field(line, CALL).is_empty() {
        return Ok(());
    }
    out.write_all(if comes_out(line) {
        b"ok    "
    } else {
        b"WRONG "
    })?;
    out.write_all(field(line, NAME))?;
    out.write_all(b"\n")
}

fn tell_all(out: &mut impl Write, lines: &[u8]) -> io::Result<()> {
    for line in lines.split(|byte| *byte == 0) {
        tell(out, line)?;
    }
    Ok(())
}

// The byte that one of the file stands for. A case is one line with newlines in it, so the end of a line becomes 0.
fn meant(byte: u8) -> u8 {
    match byte {
        b'\n' => 0,
        b'/' => b'\n',
        b'~' => b'\r',
        _ => byte,
    }
}

fn decode(bytes: &mut [u8]) {
    for byte in bytes {
        *byte = meant(*byte);
    }
}

fn main(rt: HostRuntime) -> io::Result<()> {
    let mut input = [0u8; INPUT_ROOM];
    let n = io::copy(&mut rt.stdin().take(INPUT_ROOM as u64), &mut &mut input[..])?;
    decode(&mut input);
    tell_all(&mut rt.stdout(), &input[..INPUT_ROOM.min(n as usize)])
}
