// Request 01, the verdict on patched listings: what the walk answers, and the sizes of the sets that are lent to it. What a verdict is
// and what it means is said in specs/ (`Walk`, `Claims`); what is shown of these definitions alone stands in proofs/. There is no entry
// point here.

#![tactic(auto)]

use model::STATE_SIZE;

// The most values of a set, and the bytes of one.
pub const MAX_VALUES: usize = 16;

pub const SET_WIDTH: usize = 17;

// The bytes of the sets of all places.
pub const SETS_SIZE: usize = SET_WIDTH * STATE_SIZE;

// What the walk answers unless it is refused: balanced or spent, as a run would be halted or spent, with counter and steps; or a leak, with
// the first line where two choices give different rows and the steps done before it.
#[derive(Clone, Copy)]
pub enum Verdict {
    Balanced { counter: u16, steps: u16 },
    Spent { counter: u16, steps: u16 },
    Leak { line: u16, steps: u16 },
}
