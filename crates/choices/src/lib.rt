// The choices of a line, one after the other. The walk keeps the sets as bytes and beside them the state of their first values. A place
// that is drawn takes each of its values in turn and has it alone while the later places are drawn, so that a place used twice is not
// drawn again, and a choice is a state of the machine. The old value is not drawn: where the destination may have several, only the
// distance of the write turns on it; nor is the bus, whose values bus.rt looks at. bytes.rt has the bytes of sets.

#![tactic(auto)]

ghost use Rattle.std.specs.Prelude.{◌≡◌, true, cond, ◌+◌, ◌*◌, ◌<◌, ◌≤◌, eqb, ltb, get_or, set, drop, MatchOption};
ghost use Rattle.model.specs.Limits.{state_size};
ghost use Rattle.model.specs.Stored.{operand_of};
ghost use Rattle.sets.specs.Walk.{set_width, max_values, listed, lists_of, values, heads, base, draw, involved, same_row};
ghost use Rattle.choices.specs.Gathering.{line_by, argument_places, spot, gathered, visited_all, Settled, Opens, all_at, alike, begun};

use bytes::{ROOM, is_overfull, is_several, note, size_of, value_of};
use machine::tables::Weights;
use model::{LINE_WIDTH, ROW_WIDTH, STATE_SIZE};
use sets::{SET_WIDTH, SETS_SIZE};

pub mod bus;
pub mod bytes;

// The places of the arguments: two bases, and what they name.
const ARGUMENT_PLACES: usize = 4;

// Where the distance of the write stands in a row.
const CHANGED: usize = 2;

// The base register of the operand of a number.
pub fn base_of(code: u16) -> usize
    ensures { result ≡ base (operand_of code) }
{
    match code {
        0..coding::PUBLICS => STATE_SIZE,
        coding::PUBLICS..coding::SENSITIVES => ((code - coding::PUBLICS) / 128) as usize,
        coding::SENSITIVES..coding::TABLES => ((code - coding::SENSITIVES) / 128) as usize,
        coding::TABLES.. => ((code - coding::TABLES) / 256) as usize,
    }
}

// The number of the argument that place number `level` is of.
fn argument_at(line: &[u16; LINE_WIDTH], level: usize) -> u16
    ensures { result ≡ cond (ltb level 2) (get_or line.now 3 0) (get_or line.now 4 0) }
{
    if level < 2 { line[3] } else { line[4] }
}

// Place number `level` of the arguments: the base of the first, the place that it names, and those of the second.
fn place_of(line: &[u16; LINE_WIDTH], level: usize, state: &[u8; STATE_SIZE]) -> usize
    requires { level < argument_places }
    ensures { result ≡ spot (line_by line.now) level state.now }
{
    let code = argument_at(line, level);
    if level % 2 == 0 {
        return base_of(code);
    }
    machine::place_at(code, state)
}

// A place of the arguments that has several values, and its number.
#[derive(Clone, Copy)]
struct Open {
    level: usize,
    at: usize,
}

// The next one from number `level` on, if there is one.
fn next_open(
    line: &[u16; LINE_WIDTH],
    level: usize,
    sets: &[u8; SETS_SIZE],
    state: &[u8; STATE_SIZE],
) -> Option<Open>
    requires { (level ≤ argument_places) × (state.now ≡ heads (lists_of sets.now)) × Settled (lists_of sets.now) (line_by line.now) level }
    ensures { MatchOption result (Opens (lists_of sets.now) (line_by line.now) level argument_places state_size) (λ place. (place.level < argument_places) × Opens (lists_of sets.now) (line_by line.now) level place.level place.at) }
{
    for k in level..ARGUMENT_PLACES {
        let at = place_of(line, k, state);
        if is_several(sets, at) {
            return Some(Open { level: k, at });
        }
    }
    None
}

// Whether two rows are the same.
// An index loop: with `==` of arrays the walk of 24,576 choices without a leak takes 1.19 times plain C, with this 1.00.
fn is_same(a: &[u16; ROW_WIDTH], b: &[u16; ROW_WIDTH]) -> bool
    ensures { result ≡ same_row a.now b.now }
{
    for i in 0..ROW_WIDTH {
        if a[i] != b[i] {
            return false;
        }
    }
    true
}

// Whether all old values of a place are at that distance from a result.
fn is_at(sets: &[u8; SETS_SIZE], i: usize, res: u8, distance: u16, weights: &Weights) -> bool
    ensures { result ≡ all_at distance res (values (lists_of sets.now) i) }
{
    for j in 0..size_of(sets, i) {
        if weights.distance_of(value_of(sets, i, j) as u16, res as u16) != distance {
            return false;
        }
    }
    true
}

// Whether `shown` is the first row but for the distance of the write, and every old value of a place is at that distance of the first row from
// the result. Where `shown` is the first itself it need not be compared.
fn is_alike(
    row: &[u16; ROW_WIDTH],
    shown: &[u16; ROW_WIDTH],
    first: bool,
    sets: &[u8; SETS_SIZE],
    i: usize,
    res: u8,
    weights: &Weights,
) -> bool
    requires { first ≡ true → row.now ≡ shown.now }
    ensures { result ≡ alike row.now shown.now res (values (lists_of sets.now) i) }
{
    let changed = row[CHANGED];
    let mut rest = *shown;
    rest[CHANGED] = changed;
    (first || is_same(row, &rest)) && is_at(sets, i, res, changed, weights)
}

// A row is kept where it is the first.
fn keep_row(row: &mut [u16; ROW_WIDTH], new: &[u16; ROW_WIDTH], first: bool)
    ensures { row.new ≡ cond first new.now row.old }
{
    if first {
        *row = *new;
    }
}

// The choices that are left when the arguments have their values: each old value of the destination. All write the same; their rows, with 0 on
// the bus, are compared with the first row of all, which is kept where there is none yet.
fn visit(
    line: &[u16; LINE_WIDTH],
    counter: u16,
    row: &mut [u16; ROW_WIDTH],
    sets: &[u8; SETS_SIZE],
    state: &[u8; STATE_SIZE],
    found: &mut [u8; ROOM],
    leak: bool,
    weights: &Weights,
) -> bool
    requires { (state.now ≡ heads (lists_of sets.now)) × (get_or found.old 0 0 ≤ max_values) × Settled (lists_of sets.now) (line_by line.now) argument_places }
    ensures { (gathered (listed found.new) result row.new ≡ visited_all (line_by line.now) counter (gathered (listed found.old) leak row.old) (draw (lists_of sets.now) (drop argument_places (involved (line_by line.now))))) × (get_or found.new 0 0 ≤ set_width) }
{
    let e = machine::effect_of(
        line[0], line[1], line[2], line[3], line[4], counter, 0, state, weights,
    );
    let first = found[0] == 0;
    keep_row(row, &e.row, first);
    note(found, e.result);
    if is_overfull(found) {
        return leak;
    }
    leak || !is_alike(row, &e.row, first, sets, e.place, e.result, weights)
}

// Sets the count and the first value of a place's set, and the value that it has in the state.
fn narrow(sets: &mut [u8; SETS_SIZE], state: &mut [u8; STATE_SIZE], i: usize, count: u8, value: u8)
    requires { i < state_size }
    ensures { (sets.new ≡ begun sets.old i count value) × (state.new ≡ set state.old i value) }
{
    sets[SET_WIDTH * i] = count;
    sets[SET_WIDTH * i + 1] = value;
    state[i] = value;
}

// Value j of a place whose first value is given.
fn value_beside(sets: &[u8; SETS_SIZE], i: usize, first: u8, j: usize) -> u8
    requires { (i < state_size) × (j < max_values) }
    ensures { result ≡ cond (eqb j 0) first (get_or sets.now (set_width * i + 1 + j) 0) }
{
    if j == 0 {
        return first;
    }
    sets[SET_WIDTH * i + 1 + j]
}

// The choices from place number `level` of the arguments on. Sets and state are left as they were. The stores' sizes stand in their types, so
// that each call hands on six pointers and no lengths.
pub fn explore(
    line: &[u16; LINE_WIDTH],
    counter: u16,
    row: &mut [u16; ROW_WIDTH],
    level: usize,
    sets: &mut [u8; SETS_SIZE],
    state: &mut [u8; STATE_SIZE],
    found: &mut [u8; ROOM],
    leak: bool,
    weights: &Weights,
) -> bool
    requires { (level ≤ argument_places) × (state.old ≡ heads (lists_of sets.old)) × (get_or found.old 0 0 ≤ set_width) × Settled (lists_of sets.old) (line_by line.now) level }
    ensures visited { (gathered (listed found.new) result row.new ≡ visited_all (line_by line.now) counter (gathered (listed found.old) leak row.old) (draw (lists_of sets.old) (drop level (involved (line_by line.now))))) × (get_or found.new 0 0 ≤ set_width) }
    ensures unchanged { (sets.new ≡ sets.old) × (state.new ≡ state.old) }
{
    if is_overfull(found) {
        return leak;
    }
    let Some(Open { level: k, at }) = next_open(line, level, sets, state) else {
        return visit(line, counter, row, sets, state, found, leak, weights);
    };
    let count = sets[SET_WIDTH * at];
    let first = sets[SET_WIDTH * at + 1];
    let n = size_of(sets, at);
    let mut seen = leak;
    for j in 0..n {
        let value = value_beside(sets, at, first, j);
        narrow(sets, state, at, 1, value);
        seen = explore(line, counter, row, k + 1, sets, state, found, seen, weights);
    }
    narrow(sets, state, at, count, first);
    seen
}
