// Two tables with an entry for each place, and for the one past a state, which is none: what a marked line keeps of a byte there, and the
// weight of the place's address. That the entries are right stands in the types, so whoever is lent a table need not be told.

#![tactic(auto)]

ghost use Rattle.std.specs.Prelude.{◌≡◌, ◌<◌, ◌≤◌};
ghost use Rattle.model.specs.declared.Mark.TheVariants.{Marked};
ghost use Rattle.model.specs.Limits.{state_size};
ghost use Rattle.model.specs.Step.{weight, distance};
ghost use Rattle.machine.specs.Loop.{read_as, address_at, is_cell, addresses, mask, ByPlace};

use model::STATE_SIZE;

// The places of a state, and the one past them, which is none.
pub const PLACES: usize = STATE_SIZE + 1;

// What a marked line keeps of a byte: its lowest bit, or all of it.
const LOWEST: u8 = 1;

const WHOLE: u8 = 255;

// What it keeps of a byte at a place.
fn mask_at(i: usize) -> u8
    ensures { result ≡ mask i }
{
    if coding::is_public(coding::kind_at(i)) {
        LOWEST
    } else {
        WHOLE
    }
}

// The masks of all places. A run makes them once: to tell the kind of a place at each argument of each step would make it slower by a third.
#[derive(Drop)]
pub struct Masks {
    pub by_place: [u8; PLACES],
    pub ghost right: { ByPlace mask by_place },
}

impl Masks {
    pub fn all() -> Self
        ensures { ByPlace mask result.by_place }
    {
        Masks {
            by_place: std::array::from_fn(mask_at),
        }
    }

    // What a byte of a place means as an argument of a marked line.
    pub(super) fn kept(&self, at: usize, byte: u8) -> u8
        requires { at ≤ state_size }
        ensures { result ≡ read_as Marked at byte }
    {
        byte & self.by_place[at]
    }
}

// The Hamming weight.
fn weight(n: u16) -> u16
    ensures { result ≡ weight n }
{
    u16::count_ones(n) as u16
}

// Whether a place is a cell, which has an address.
fn is_cell(at: usize) -> bool
    ensures { result ≡ is_cell at }
{
    32 <= at && at < STATE_SIZE
}

// The weight of the address of a place: of a cell its number's, of any other 0.
fn address_weight(at: usize) -> u16
    ensures { result ≡ weight (address_at at) }
{
    if is_cell(at) {
        weight((at - 32) as u16)
    } else {
        0
    }
}

// The weights of the addresses of all places, which serve bytes too: cell n is place 32 + n. A run and a walk make them once: not every
// processor has an instruction that counts ones, and a row has eight counts of ones.
#[derive(Drop)]
pub struct Weights {
    pub by_place: [u16; PLACES],
    pub ghost right: { ByPlace (λ i. weight (address_at i)) by_place },
}

impl Weights {
    pub fn all() -> Self
        ensures { ByPlace (λ i. weight (address_at i)) result.by_place }
    {
        Weights {
            by_place: std::array::from_fn(address_weight),
        }
    }

    // The weight of a byte or of an address.
    pub(super) fn weight_of(&self, n: u16) -> u16
        requires { n < addresses }
        ensures { result ≡ weight n }
    {
        self.by_place[32 + (n as usize)]
    }

    // The distance of two bytes or two addresses.
    pub fn distance_of(&self, x: u16, y: u16) -> u16
        requires { (x < addresses) × (y < addresses) }
        ensures { result ≡ distance x y }
    {
        self.weight_of(x ^ y)
    }
}
