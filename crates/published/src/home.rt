// Request 08, the round trip, said of the functions that run. specs/Claims states it of the calls of `send_out` and `take_in`, proofs/HomeCalls
// proves it, and the functions here, which make these calls, promise it.
ghost use Rattle.std.specs.Prelude.{◌≡◌, [], ◌∷◌, take};
ghost use Rattle.model.specs.Answers.{report, outcome};
ghost use Rattle.published.specs.Published.{take_in_outcome, send_out_outcome};
ghost use Rattle.published.specs.Claims.{bytes_of, HomeCalls, AcceptedCalls};

use crate::{send_out, take_in};
use model::Refusal;

// The bytes that a call wrote.
fn bytes(answer: Result<usize, Refusal<usize>>) -> usize
    ensures { result ≡ bytes_of (report answer) }
{
    answer.unwrap_or(0)
}

#[derive(Clone, Copy)]
pub struct RoundTrip {
    pub sent: Result<usize, Refusal<usize>>,
    pub taken: Result<usize, Refusal<usize>>,
}

// Sends a text out, and takes in what was written. Where the first is not refused, and the second is lent room for the text, it comes home
// with the same bytes.
pub fn come_home(text: &[u8], published: &mut [u8], home: &mut [u8]) -> RoundTrip
    ensures published_after { outcome (report result.sent) (published.new ∷ []) ≡ send_out_outcome text.now published.old }
    ensures home_after { outcome (report result.taken) (home.new ∷ []) ≡ take_in_outcome (take (bytes_of (report result.sent)) published.new) home.old }
    ensures home_calls { HomeCalls text.now home.old (report result.sent) (report result.taken) home.new }
{
    let sent = send_out(text, published);
    let taken = take_in(&published[..bytes(sent)], home);
    RoundTrip { sent, taken }
}

#[derive(Clone, Copy)]
pub struct TwoTrips {
    pub taken: Result<usize, Refusal<usize>>,
    pub again: RoundTrip,
}

// Takes a text in, sends out what was written, and takes that in again. Where the first is not refused, the second is refused with nothing but 17,
// and where neither is, and the third is lent room for it, the same bytes come again.
pub fn take_again(text: &[u8], taken: &mut [u8], published: &mut [u8], again: &mut [u8]) -> TwoTrips
    ensures taken_after { outcome (report result.taken) (taken.new ∷ []) ≡ take_in_outcome text.now taken.old }
    ensures published_after { outcome (report result.again.sent) (published.new ∷ []) ≡ send_out_outcome (take (bytes_of (report result.taken)) taken.new) published.old }
    ensures again_after { outcome (report result.again.taken) (again.new ∷ []) ≡ take_in_outcome (take (bytes_of (report result.again.sent)) published.new) again.old }
    ensures accepted_calls { AcceptedCalls (report result.taken) (report result.again.sent) }
    ensures home_calls { HomeCalls (take (bytes_of (report result.taken)) taken.new) again.old (report result.again.sent) (report result.again.taken) again.new }
{
    let first = take_in(text, taken);
    TwoTrips {
        taken: first,
        again: come_home(&taken[..bytes(first)], published, again),
    }
}
