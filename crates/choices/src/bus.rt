// What the bus may hold. A line's first address meets all of it, and its last one takes its place; both turn on the base of one operand
// alone.
ghost use Rattle.std.specs.Prelude.{◌≡◌, true, false, ◌&&◌, [], ◌∷◌, ◌++◌, ℕ, take, List, ◌<◌, ◌≤◌, ltb, length, get_or, MatchOption};
ghost use Rattle.model.specs.Places.{has_address};
ghost use Rattle.model.specs.Step.{distance};
ghost use Rattle.model.specs.Stored.{operand_of};
ghost use Rattle.sets.specs.Walk.{max_values, lists_of, values};
ghost use Rattle.sets.specs.Addresses.{address_by, reached, addressed, leads};
ghost use Rattle.choices.specs.Gathering.{line_by, all_at};
ghost use Rattle.choices.specs.Bus.{met_by, meets};

use super::base_of;
use super::bytes::{size_of, value_of};
use model::LINE_WIDTH;
use sets::{MAX_VALUES, SETS_SIZE};
use std::marker::Model;

// What the bus may hold: the first `count` of these values.
#[derive(Drop)]
pub struct Bus {
    values: [u16; MAX_VALUES],
    count: usize,
}

// Clauses see the values.
impl Model for Bus {
    ghost Value = { List ℕ };

    ghost view = { λ b. take b.count b.values };

    ghost invariant = { λ b. b.count ≤ max_values };
}

impl Bus {
    // One value alone.
    pub fn holding(value: u16) -> Self
        ensures { result ≡ value ∷ [] }
    {
        let mut values = [0u16; MAX_VALUES];
        values[0] = value;
        Bus { values, count: 1 }
    }

    // How many values it may hold.
    fn count(&self) -> usize
        ensures { result ≡ length self.now }
    {
        self.count
    }

    // The first of them.
    fn first(&self) -> u16
        requires { 0 < length self.now }
        ensures { result ≡ get_or self.now 0 0 }
    {
        self.values[0]
    }

    // Whether all values are at that distance from an address.
    fn is_apart(&self, x: u16, distance: u16) -> bool
        ensures { result ≡ all_at distance x self.now }
    {
        for &value in &self.values[..self.count] {
            if machine::distance(value, x) != distance {
                return false;
            }
        }
        true
    }

    // No value.
    fn clear(&mut self)
        ensures { self.new ≡ [] }
    {
        self.count = 0;
    }

    // A value more, behind the others.
    fn push(&mut self, x: u16)
        requires { length self.old < max_values }
        ensures { self.new ≡ self.old ++ x ∷ [] }
    {
        self.values[self.count] = x;
        self.count += 1;
    }
}

// Whether the operand of a number has an address.
fn has_address(code: u16) -> bool
    ensures { result ≡ has_address (operand_of code) }
{
    coding::CELLS <= code
}

// The address of the operand of a number whose base has a value; 0 where it has none.
fn address_by(code: u16, value: u8) -> u16
    ensures { result ≡ address_by (operand_of code) value }
{
    match code {
        0..coding::CELLS => 0,
        coding::CELLS..coding::PUBLICS => code - coding::CELLS,
        coding::PUBLICS..coding::SENSITIVES => (value as u16 + (code - coding::PUBLICS) % 128)
            % 128,
        coding::SENSITIVES..coding::TABLES => 128
            + (value as u16 + (code - coding::SENSITIVES) % 128) % 128,
        coding::TABLES.. => 256 + (value as u16 + (code - coding::TABLES) % 256) % 256,
    }
}

// The first of three operands that has an address.
fn addressed(a: u16, b: u16, c: u16) -> Option<u16>
    ensures { MatchOption result (has_address (addressed (operand_of a) (operand_of b) (operand_of c)) ≡ false) (λ code. (operand_of code ≡ addressed (operand_of a) (operand_of b) (operand_of c)) × (has_address (operand_of code) ≡ true)) }
{
    if has_address(a) {
        Some(a)
    } else if has_address(b) {
        Some(b)
    } else if has_address(c) {
        Some(c)
    } else {
        None
    }
}

// Whether there is one value of a base, and one on the bus, as nearly always.
fn is_alone(size: usize, count: usize) -> bool
    ensures { result ≡ ltb size 2 && ltb count 2 }
{
    size < 2 && count < 2
}

// Whether every address that the operand of a number may have is at one distance from the bus, whatever it holds.
fn are_met(code: u16, sets: &[u8; SETS_SIZE], bus: &Bus) -> bool
    requires { ((i : ℕ) → 0 < length (values (lists_of sets.now) i)) × (0 < length bus.now) }
    ensures { result ≡ met_by bus.now (reached (lists_of sets.now) (operand_of code)) }
{
    let at = base_of(code);
    let n = size_of(sets, at);
    if is_alone(n, bus.count()) {
        return true;
    }
    let first = machine::distance(bus.first(), address_by(code, value_of(sets, at, 0)));
    for j in 0..n {
        if !bus.is_apart(address_by(code, value_of(sets, at, j)), first) {
            return false;
        }
    }
    true
}

// Whether the first address of a line is at one distance from the bus, whatever both are.
pub fn is_met(line: &[u16; LINE_WIDTH], sets: &[u8; SETS_SIZE], bus: &Bus) -> bool
    requires { ((i : ℕ) → 0 < length (values (lists_of sets.now) i)) × (0 < length bus.now) }
    ensures { result ≡ meets (lists_of sets.now) bus.now (line_by line.now) }
{
    match addressed(line[3], line[4], line[2]) {
        Some(code) => are_met(code, sets, bus),
        None => true,
    }
}

// The bus at each address that the operand of a number may have.
fn reach(code: u16, sets: &[u8; SETS_SIZE], bus: &mut Bus)
    ensures { bus.new ≡ reached (lists_of sets.now) (operand_of code) }
{
    let at = base_of(code);
    bus.clear();
    for j in 0..size_of(sets, at) {
        bus.push(address_by(code, value_of(sets, at, j)));
    }
}

// What the bus may hold after a line.
pub fn lead(line: &[u16; LINE_WIDTH], sets: &[u8; SETS_SIZE], bus: &mut Bus)
    ensures { bus.new ≡ leads (lists_of sets.now) bus.old (line_by line.now) }
{
    if let Some(code) = addressed(line[2], line[4], line[3]) {
        reach(code, sets, bus);
    }
}
