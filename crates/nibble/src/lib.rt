// The nibble engine of request 10: the (3,6)-code of source 001, its exclusive-or table, and a table for any map of nibbles. What each function
// answers is written down in specs/Nibbles.

#![tactic(auto)]

ghost use Rattle.std.specs.Prelude.{◌≡◌, [], ◌∷◌, ◌<◌, ◌≤◌, length, replicate, OnOk, IfErr};
ghost use Rattle.model.specs.Answers.{report, outcome};
ghost use Rattle.nibble.specs.Nibbles.{codeword, decoded, xor_table, map_table, result_of, pair_result, first_above, map_outcome};

use model::{Condition, Refusal};
use table::XOR_TABLE;

pub mod results;
mod table;

// How many values a map of nibbles has.
const NIBBLES: usize = 16;

// How many entries its table has: one for each word of six bits.
pub const WORDS: usize = 64;

// How many entries the exclusive-or table has: one for each pair of words.
pub const PAIRS: usize = 4096;

// Coding: the codeword of a nibble, 0 above 15. It is a match, here and in decoding, because that is compiled to a table which is there once, and
// an array of constants is made anew at each call.
#[tactic(auto, using(crate::proofs::CodeLaws::above_15), unfolding(crate::specs::Nibbles::codeword))]
pub fn encode(n: u8) -> u8
    ensures { result ≡ codeword n }
{
    match n {
        0 => 7,
        1 => 11,
        2 => 13,
        3 => 14,
        4 => 19,
        5 => 21,
        6 => 22,
        7 => 25,
        8 => 26,
        9 => 28,
        10 => 35,
        11 => 37,
        12 => 38,
        13 => 41,
        14 => 42,
        15 => 44,
        _ => 0,
    }
}

// Decoding: the nibble of a codeword, 255 outside the code.
#[tactic(auto, unfolding(crate::specs::Nibbles::decoded))]
pub fn decode(c: u8) -> u8
    ensures { result ≡ decoded c }
{
    match c {
        7 => 0,
        11 => 1,
        13 => 2,
        14 => 3,
        19 => 4,
        21 => 5,
        22 => 6,
        25 => 7,
        26 => 8,
        28 => 9,
        35 => 10,
        37 => 11,
        38 => 12,
        41 => 13,
        42 => 14,
        44 => 15,
        _ => 255,
    }
}

// ---- a table's result

// The result of a map's table for an operand, 0 above 63.
pub fn look_up(table: &[u8; WORDS], c: u8) -> u8
    ensures { result ≡ result_of table.now c }
{
    table.get(c as usize).copied().unwrap_or(0)
}

// The result of a table of 4,096 entries for two operands, 0 where either is above 63.
pub fn look_up_pair(table: &[u8; PAIRS], a: u8, b: u8) -> u8
    ensures { result ≡ pair_result table.now a b }
{
    if 63 < a || 63 < b {
        return 0;
    }
    table[64 * (a as usize) + b as usize]
}

// ---- the exclusive-or table

// The whole table. Keep it where you look up often: the constant is made anew at each use.
pub fn xor_table() -> [u8; PAIRS]
    ensures { result ≡ xor_table }
{
    XOR_TABLE
}

// The codeword of the exclusive or of two nibbles, from their codewords; 0 where either is outside the code.
pub fn xor(a: u8, b: u8) -> u8
    ensures { result ≡ pair_result xor_table a b }
{
    let table = xor_table();
    look_up_pair(&table, a, b)
}

// ---- a map's table

// The answer, and the table, all 0 after a refusal.
#[derive(Clone, Copy)]
pub struct MapTable {
    pub answer: Result<u32, Refusal>,
    pub table: [u8; WORDS],
}

// C(m(a)) at C(a), over zeros; the index of the first value above 15, where there is one.
fn fill(map: &[u8], table: &mut [u8; WORDS]) -> Result<(), usize>
    requires map_len { length map.now ≡ 16 }
    requires zeros { table.old ≡ replicate 64 0 }
    ensures ok { OnOk result ((16 ≤ first_above map.now) × (table.new ≡ map_table map.now)) }
    ensures err { IfErr result (λ i. (i ≡ first_above map.now) × (i < 16)) }
{
    for a in 0..NIBBLES {
        let value = map[a];
        if 15 < value {
            return Err(a);
        }
        let at = encode(a as u8) as usize;
        table[at] = encode(value);
    }
    Ok(())
}

// The table of a map of nibbles, given by its 16 values, written into a lent one; all 0 after a refusal.
pub fn map_table_into(map: &[u8], table: &mut [u8; WORDS]) -> Result<u32, Refusal>
    ensures { outcome (report result) (table.new ∷ []) ≡ map_outcome map.now }
{
    *table = [0; WORDS];
    if map.len() != NIBBLES {
        return Err(Refusal {
            condition: Condition::WrongMap,
            line: 0,
        });
    }
    match fill(map, table) {
        Ok(()) => Ok(64),
        Err(i) => {
            *table = [0; WORDS];
            Err(Refusal {
                condition: Condition::WrongMap,
                line: i as u16,
            })
        }
    }
}

// The same by value.
pub fn map_table(map: &[u8]) -> MapTable
    ensures { outcome (report result.answer) (result.table ∷ []) ≡ map_outcome map.now }
{
    let mut table = [0u8; WORDS];
    let answer = map_table_into(map, &mut table);
    MapTable { answer, table }
}
