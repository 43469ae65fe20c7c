// How a case of `stdin` is written: its fields and numbers, what it says about memory, and what it says about the answer and the text.
// Nothing here calls what is tested: main.rt has the calls.
ghost use Rattle.std.specs.Prelude.{◌-◌, ◌≤◌, length};

use model::{Ending, Refusal, STATE_SIZE};
use sets::{SETS_SIZE, Verdict};
use std::array;
use watch::{MAX_WATCHES, Watch};

// The fields of a case, in their order.
pub(super) const NAME: usize = 0;

pub(super) const CALL: usize = 1;

pub(super) const PROGRAM: usize = 2;

const NUMBERS: usize = 3;

const ANSWER: usize = 4;

pub(super) const BEFORE: usize = 5;

const AFTER: usize = 6;

const TEXT: usize = 7;

// The largest number of 16 bits, as stored numbers, starts and budgets are.
pub(super) const LARGEST: usize = 65535;

// The bytes of a set of values: their count, then the values.
const SET_WIDTH: usize = SETS_SIZE / STATE_SIZE;

// ---- fields and numbers

// Where the first mark stands, or how many bytes there are where there is none.
fn find(bytes: &[u8], mark: u8) -> usize
    ensures { result ≤ length bytes.now }
{
    bytes
        .iter()
        .position(|byte| *byte == mark)
        .unwrap_or(bytes.len())
}

// What stands before the first mark, or all where there is none.
pub(super) fn head(bytes: &[u8], mark: u8) -> &[u8] {
    &bytes[..find(bytes, mark)]
}

// What stands after the first mark, or nothing where there is none.
pub(super) fn tail(bytes: &[u8], mark: u8) -> &[u8]
    ensures { length result.now ≤ length bytes.now - 1 }
{
    let end = find(bytes, mark);
    if end < bytes.len() {
        let next = end + 1;
        &bytes[next..]
    } else {
        &bytes[end..]
    }
}

// What stands after n marks and before the next.
fn part(bytes: &[u8], n: usize, mark: u8) -> &[u8] {
    let mut rest = bytes;
    for _ in 0..n {
        rest = tail(rest, mark);
    }
    head(rest, mark)
}

// How many items, with marks between, stand before the first empty one, at most so many.
fn items(list: &[u8], mark: u8, most: usize) -> usize
    ensures { result ≤ most }
{
    (0..most)
        .position(|n| part(list, n, mark).is_empty())
        .unwrap_or(most)
}

pub(super) fn field(line: &[u8], n: usize) -> &[u8] {
    part(line, n, b'|')
}

// The first byte, or 0 where there is none.
pub(super) fn first(bytes: &[u8]) -> u8 {
    bytes.first().copied().unwrap_or(0)
}

// Whether a digit comes first.
pub(super) fn is_number(bytes: &[u8]) -> bool {
    first(bytes).is_ascii_digit()
}

// A number with a digit more, where it has fewer than six. Any other byte is passed over.
fn with_digit(n: usize, byte: u8) -> usize
    requires { n ≤ 999999 }
    ensures { result ≤ 999999 }
{
    match byte {
        b'0'..=b'9' if n <= 99999 => 10 * n + (byte - b'0') as usize,
        _ => n,
    }
}

// The number that the digits among the bytes write; 0 where there are none.
pub(super) fn decimal(bytes: &[u8]) -> usize
    ensures { result ≤ 999999 }
{
    let mut n = 0;
    for byte in bytes {
        n = with_digit(n, *byte);
    }
    n
}

// The word behind the name of a call.
pub(super) fn word(line: &[u8]) -> &[u8] {
    part(field(line, CALL), 1, b' ')
}

// Number n of those that stand behind the name of a call: two for its layout, of a move four, else operands; 0 where there is none.
pub(super) fn behind(line: &[u8], n: usize) -> u8 {
    decimal(part(field(line, CALL), n, b' ')).min(255) as u8
}

// Number n of a case, as far as there is room for it.
pub(super) fn size(line: &[u8], n: usize, most: usize) -> usize
    ensures { result ≤ most }
{
    decimal(part(field(line, NUMBERS), n, b' ')).min(most)
}

// The places that a run watches, behind the name of its call; 0, which is r0, where there is none.
fn place_watched(line: &[u8], n: usize) -> u16 {
    decimal(part(field(line, CALL), n, b' ')).min(LARGEST) as u16
}

pub(super) fn watched(line: &[u8]) -> [u16; MAX_WATCHES] {
    array::from_fn(|i| place_watched(line, i + 1))
}

// ---- weights: signed numbers, of which a case has as many as stand there

fn weight(item: &[u8]) -> i16 {
    let size = decimal(item).min(32767) as i16;
    if first(item) == b'-' { -size } else { size }
}

// Writes the weights of a case, as far as there is room, and counts them.
pub(super) fn put_weights(line: &[u8], weights: &mut [i16]) -> usize
    ensures { result ≤ length weights.new }
{
    let numbers = field(line, NUMBERS);
    let n = items(numbers, b' ', weights.len());
    for i in 0..n {
        weights[i] = weight(part(numbers, i, b' '));
    }
    n
}

// ---- memory: `r4=200`, `@5=7` and `b78=9` say what a byte holds, `7=1` what a number holds

// The place that a name has. A cell of a state stands after its 32 registers.
fn place(name: &[u8]) -> usize
    ensures { result ≤ 1000031 }
{
    let n = decimal(name);
    if first(name) == b'@' { 32 + n } else { n }
}

fn value(item: &[u8]) -> u16 {
    decimal(tail(item, b'=')).min(LARGEST) as u16
}

// Sets a byte, where there is one.
fn put_byte(bytes: &mut [u8], at: usize, value: usize) {
    if let Some(byte) = bytes.get_mut(at) {
        *byte = (value % 256) as u8;
    }
}

// A digit first means a number, any other byte a byte.
fn put_one(item: &[u8], bytes: &mut [u8], numbers: &mut [u16]) {
    let at = place(head(item, b'='));
    let value = value(item);
    if !is_number(item) {
        put_byte(bytes, at, value as usize);
    } else if let Some(number) = numbers.get_mut(at) {
        *number = value;
    }
}

// Sets what a list says.
pub(super) fn put(list: &[u8], bytes: &mut [u8], numbers: &mut [u16]) {
    let mut rest = list;
    while !rest.is_empty() {
        put_one(head(rest, b' '), bytes, numbers);
        rest = tail(rest, b' ');
    }
}

// ---- sets of values, of a walk: `r4=1,2` says which values a place may have, `b68=0` what a byte of the sets holds

// The set of a place, from its values with commas between.
fn put_values(values: &[u8], at: usize, sets: &mut [u8])
    requires { at ≤ 1000031 }
{
    let n = items(values, b',', SET_WIDTH - 1);
    for i in 0..n {
        put_byte(sets, SET_WIDTH * at + 1 + i, decimal(part(values, i, b',')));
    }
    put_byte(sets, SET_WIDTH * at, n);
}

fn put_set(item: &[u8], sets: &mut [u8]) {
    if first(item) == b'b' {
        put_one(item, sets, &mut []);
    } else if !is_number(item) {
        put_values(tail(item, b'='), place(head(item, b'=')), sets);
    }
}

// Sets what a list says.
fn put_listed(list: &[u8], sets: &mut [u8]) {
    let mut rest = list;
    while !rest.is_empty() {
        put_set(head(rest, b' '), sets);
        rest = tail(rest, b' ');
    }
}

// The sets of a case: 0 alone in each place, but for what its list says.
pub(super) fn put_sets(line: &[u8], sets: &mut [u8]) {
    for i in 0..STATE_SIZE {
        put_values(b"0", i, sets);
    }
    put_listed(field(line, BEFORE), sets);
}

// ---- what memory holds then

// Whether a place holds the value of an item.
fn holds_at(item: &[u8], at: usize, bytes: &[u8], numbers: &[u16]) -> bool {
    let value = value(item);
    if is_number(item) {
        numbers.get(at).copied() == Some(value)
    } else {
        bytes.get(at).map(|byte| u16::from(*byte)) == Some(value)
    }
}

// The same of each place of a range.
fn holds_from(item: &[u8], from: usize, end: usize, bytes: &[u8], numbers: &[u16]) -> bool {
    (from..end).all(|at| holds_at(item, at, bytes, numbers))
}

// Whether what an item says is so, of one place or of a range, as `b0..544=9`.
fn holds_item(item: &[u8], bytes: &[u8], numbers: &[u16]) -> bool {
    let names = head(item, b'=');
    let from = place(head(names, b'.'));
    let last = tail(names, b'.');
    let end = if last.is_empty() {
        from + 1
    } else {
        decimal(last)
    };
    holds_from(item, from, end, bytes, numbers)
}

// Whether all that a list says is so.
fn holds(list: &[u8], bytes: &[u8], numbers: &[u16]) -> bool {
    let mut rest = list;
    while !rest.is_empty() {
        if !holds_item(head(rest, b' '), bytes, numbers) {
            return false;
        }
        rest = tail(rest, b' ');
    }
    true
}

// ---- answers

// An answer as a case writes it, `count 3`, `refused 5 0`, `halted 1 1` or `spent 0 5`: the first letter, which tells the four apart, and
// the numbers.
#[derive(Clone, Copy)]
pub(super) struct Told {
    letter: u8,
    one: usize,
    two: usize,
}

impl From<Refusal> for Told {
    fn from(refusal: Refusal) -> Told {
        Told {
            letter: b'r',
            one: u8::from(refusal.condition) as usize,
            two: refusal.line as usize,
        }
    }
}

impl From<Result<u32, Refusal>> for Told {
    fn from(answer: Result<u32, Refusal>) -> Told {
        match answer {
            Ok(n) => Told {
                letter: b'c',
                one: n as usize,
                two: 0,
            },
            Err(refusal) => refusal.into(),
        }
    }
}

impl From<Result<Ending, Refusal>> for Told {
    fn from(answer: Result<Ending, Refusal>) -> Told {
        match answer {
            Ok(Ending::Halted { counter, steps }) => Told {
                letter: b'h',
                one: counter as usize,
                two: steps as usize,
            },
            Ok(Ending::Spent { counter, steps }) => Told {
                letter: b's',
                one: counter as usize,
                two: steps as usize,
            },
            Err(refusal) => refusal.into(),
        }
    }
}

// A verdict the same way: `balanced 1 1`, `spent 0 5`, `leak 3 3` or `refused 21 0`.
impl From<Result<Verdict, Refusal>> for Told {
    fn from(answer: Result<Verdict, Refusal>) -> Told {
        match answer {
            Ok(Verdict::Balanced { counter, steps }) => Told {
                letter: b'b',
                one: counter as usize,
                two: steps as usize,
            },
            Ok(Verdict::Spent { counter, steps }) => Told {
                letter: b's',
                one: counter as usize,
                two: steps as usize,
            },
            Ok(Verdict::Leak { line, steps }) => Told {
                letter: b'l',
                one: line as usize,
                two: steps as usize,
            },
            Err(refusal) => refusal.into(),
        }
    }
}

fn is_told(told: Told, expected: &[u8]) -> bool {
    told.letter == first(expected)
        && told.one == decimal(part(expected, 1, b' '))
        && told.two == decimal(part(expected, 2, b' '))
}

// Whether the bytes begin with the text of a case.
pub(super) fn is_text(line: &[u8], bytes: &[u8]) -> bool {
    bytes.starts_with(field(line, TEXT))
}

// Whether a call gave the answer of its case, and left what the case says.
pub(super) fn is_right<A: Into<Told>>(
    line: &[u8],
    answer: A,
    bytes: &[u8],
    numbers: &[u16],
) -> bool {
    is_told(answer.into(), field(line, ANSWER)) && holds(field(line, AFTER), bytes, numbers)
}

// Whether a watch holds what is said of it, its place aside: value, writes and step. Nothing said is right.
fn is_noted(watch: Watch, expected: &[u8]) -> bool {
    if expected.is_empty() {
        return true;
    }
    (watch.value as usize) == decimal(part(expected, 0, b' '))
        && (watch.writes as usize) == decimal(part(expected, 1, b' '))
        && (watch.step as usize) == decimal(part(expected, 2, b' '))
}

// Whether the watches hold what the text of a case says of each, with commas between.
pub(super) fn is_seen(line: &[u8], watches: [Watch; MAX_WATCHES]) -> bool {
    let text = field(line, TEXT);
    (0..MAX_WATCHES).all(|n| is_noted(watches[n], part(text, n, b',')))
}

// Whether a walk gave the verdict of its case.
pub(super) fn is_verdict(line: &[u8], verdict: Result<Verdict, Refusal>) -> bool {
    is_told(verdict.into(), field(line, ANSWER))
}
