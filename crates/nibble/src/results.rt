// Request 10, 'Unless refused, a table's result is 0 exactly for an operand outside the code, any above 63 included, else it has three ones', and
// that coding and decoding are inverse, said of the functions that run. specs/Claims states it of an operand and a result, and the functions here,
// which make the calls, promise it.
ghost use Rattle.std.specs.Prelude.{◌≡◌, cond, ltb};
ghost use Rattle.model.specs.Answers.{report};
ghost use Rattle.nibble.specs.Nibbles.{in_code, map_check};
ghost use Rattle.nibble.specs.Claims.{XorResult, MapResult};

use crate::{decode, encode, look_up, map_table, xor};
use model::Refusal;

// A nibble coded and decoded, 255 above 15.
#[tactic(auto, using(crate::proofs::CodeLaws::coded_again))]
pub fn coded(n: u8) -> u8
    ensures { result ≡ cond (ltb n 16) n 255 }
{
    decode(encode(n))
}

// A codeword decoded and coded, 0 outside the code.
#[tactic(auto, using(crate::proofs::CodeLaws::decoded_again))]
pub fn recoded(c: u8) -> u8
    ensures { result ≡ cond (in_code c) c 0 }
{
    encode(decode(c))
}

// The exclusive-or table's result for any two operands.
#[tactic(auto, using(crate::proofs::ResultLaws::xor_results))]
pub fn xor_result(a: u8, b: u8) -> u8
    ensures { XorResult a b result }
{
    xor(a, b)
}

#[derive(Clone, Copy)]
pub struct Looked {
    pub answer: Result<u32, Refusal>,
    pub result: u8,
}

// The result of a map's table for any operand, 0 where the map is refused.
pub fn map_result(map: &[u8], c: u8) -> Looked
    ensures answer_value { report result.answer ≡ map_check map.now }
    ensures map_result { MapResult map.now (report result.answer) c result.result }
{
    let made = map_table(map);
    Looked {
        answer: made.answer,
        result: look_up(&made.table, c),
    }
}
