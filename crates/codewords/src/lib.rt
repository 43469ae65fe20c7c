// Codewords from measured bits, request 11: of all words of a length with so many ones, ranked by the signal that a probe measures, the run of
// least spread. What `choose` answers is written down in specs/Codewords, and what that is good for in specs/Claims.

#![tactic(auto)]

ghost use Rattle.std.specs.Prelude.{◌≡◌, [], ◌∷◌, map, ◌≤◌, length, replicate};
ghost use Rattle.model.specs.Answers.{number_of, report, outcome, refused as Report·refused};
ghost use Rattle.codewords.specs.Codewords.{weights_right, size_right, inputs_right, set_of, choose_outcome};
ghost use Rattle.codewords.specs.Claims.{Choice};
ghost use Rattle.codewords.specs.Keys.{word_of};

use keys::{KEYS, lowest_run, raised_at, rank_words};
use model::{Condition, Refusal};

mod keys;

// How many entries a set has.
pub const SET: usize = 16;

// The answer, and the set in ranked order, 0 in unused entries, after a refusal in all.
#[derive(Clone, Copy)]
pub struct Chosen {
    pub answer: Result<u32, Refusal>,
    pub set: [u8; SET],
}

// ---- what 28 asks

fn weights_right(weights: &[i16]) -> bool
    ensures { result ≡ weights_right weights.now }
{
    for i in 0..weights.len() {
        if raised_at(weights, i) == 0 {
            return false;
        }
    }
    true
}

fn size_right(size: u8) -> bool
    ensures { result ≡ size_right size }
{
    matches!(size, 2 | 4 | 8 | 16)
}

#[tactic(auto, unfolding(crate::specs::Codewords::inputs_right))]
fn inputs_right(bits: u8, ones: u8, size: u8, weights: &[i16]) -> bool
    ensures { result ≡ inputs_right bits ones size weights.now }
{
    4 <= bits
        && bits <= 8
        && ones <= 8
        && size_right(size)
        && weights.len() == bits as usize
        && weights_right(weights)
}

// ---- the choice

// The words of some keys in a set of 16 entries, 0 in the others.
fn set_of(keys: &[u32]) -> [u8; SET]
    requires { length keys.now ≤ 16 }
    ensures { result ≡ set_of (map word_of keys.now) }
{
    let mut set = [0u8; SET];
    for i in 0..keys.len() {
        set[i] = (keys[i] % 256) as u8;
    }
    set
}

fn refused(condition: Condition) -> Chosen
    ensures { outcome (report result.answer) (result.set ∷ []) ≡ outcome (Report·refused (number_of condition) 0) (replicate 16 0 ∷ []) }
{
    Chosen {
        answer: Err(Refusal { condition, line: 0 }),
        set: [0; SET],
    }
}

// The set of `size` words of `bits` bits with so many ones whose signals lie closest together: 28 inputs outside their ranges, 29 fewer words
// than the size.
pub fn choose(bits: u8, ones: u8, size: u8, weights: &[i16]) -> Chosen
    ensures set_value { outcome (report result.answer) (result.set ∷ []) ≡ choose_outcome bits ones size weights.now }
    ensures choice { Choice bits ones size weights.now (report result.answer) result.set }
{
    if !inputs_right(bits, ones, size, weights) {
        return refused(Condition::WrongChoice);
    }
    let mut keys = [0u32; KEYS];
    let n = rank_words(bits, ones, weights, &mut keys);
    let count = size as usize;
    if n < count {
        return refused(Condition::TooFewWords);
    }
    let ranked = &keys[..n];
    let at = lowest_run(ranked, count);
    let end = at + count;
    let set = set_of(&ranked[at..end]);
    Chosen {
        answer: Ok(size as u32),
        set,
    }
}
