// What the programs `takein` and `sendout` print (request 08): the converted text of the bytes on standard input, or the refusal, written to a
// lent store.

#![tactic(auto)]

ghost use Rattle.std.specs.Prelude.{◌≡◌, [], ◌∷◌, ◌<◌};
ghost use Rattle.model.specs.Answers.{report, outcome};
ghost use Rattle.model.specs.Text.{fitted};
ghost use Rattle.filters.specs.Filters.{takein_prints, sendout_prints, Narrow, told_text};

use lines::write_refusal;
use model::{Condition, MAX_ACCEPTED, Refusal};

// The most bytes of an input.
pub const INPUT_SIZE: usize = 65536;

// The most bytes that the programs print.
pub const TAKEN_BYTES: usize = printing::LONGEST_LINE * MAX_ACCEPTED;

pub const SENT_BYTES: usize = published::LONGEST_LINE * MAX_ACCEPTED + published::LONGEST_LABEL;

// The text of a conversion that was written to a store, or of its refusal. Where there was no room it is refused with 17, and nothing is written.
fn tell(answer: Result<usize, Refusal<usize>>, out: &mut [u8]) -> Result<u32, Refusal>
    requires { Narrow (report answer) }
    ensures { outcome (report result) (out.new ∷ []) ≡ told_text (report answer) out.old }
{
    match answer {
        Ok(n) => Ok(n as u32),
        Err(refused) => {
            let refusal = Refusal {
                condition: refused.condition,
                line: refused.line as u16,
            };
            match refused.condition {
                Condition::NoRoom => Err(refusal),
                _ => write_refusal(Err(refusal), out),
            }
        }
    }
}

// The text of the lines taken in, or of a refusal.
pub fn print_taken(input: &[u8], out: &mut [u8]) -> Result<u32, Refusal>
    ensures { outcome (report result) (out.new ∷ []) ≡ fitted (takein_prints input.now) out.old }
{
    if INPUT_SIZE < input.len() {
        let refusal = Refusal {
            condition: Condition::StoreFull,
            line: 0,
        };
        return write_refusal(Err(refusal), out);
    }
    tell(published::take_in(input, out), out)
}

// The published text, or that of a refusal. It is not one function with the above: each has the clause of its own conversion, which a generic one
// would have to ask of its caller.
pub fn print_sent(input: &[u8], out: &mut [u8]) -> Result<u32, Refusal>
    ensures { outcome (report result) (out.new ∷ []) ≡ fitted (sendout_prints input.now) out.old }
{
    if INPUT_SIZE < input.len() {
        let refusal = Refusal {
            condition: Condition::StoreFull,
            line: 0,
        };
        return write_refusal(Err(refusal), out);
    }
    tell(published::send_out(input, out), out)
}
