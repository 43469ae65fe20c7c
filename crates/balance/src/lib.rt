// 'The runs of demand 3' of document 01, of what runs. specs/EntryClaims states both claims of the calls of `expand`, `to_image`,
// `from_image` and `run`, proofs/EntryRuns proves them, and the functions here, which call these entry points, promise them.

#![tactic(auto)]

ghost use Rattle.std.specs.Prelude.{◌≡◌, [], ◌∷◌};
ghost use Rattle.model.specs.Answers.{report, run_report, outcome};
ghost use Rattle.model.specs.Images.{from_image_outcome};
ghost use Rattle.model.specs.Run.{run_outcome};
ghost use Rattle.balance.specs.EntryClaims.{Twin, SameCalls, Followable, FollowingCalls};

use model::{Ending, Refusal};

pub mod moves;
pub mod verdicts;

#[derive(Clone, Copy)]
pub struct Twins {
    pub one: Result<Ending, Refusal>,
    pub other: Result<Ending, Refusal>,
}

// Runs a listing from two states. On a listing that `expand` wrote, from the start of a source line, and on the images in its layout of two
// bit states that agree in the public places, the answers are equal and so are the rows written.
pub fn twin_runs(
    listing: &[u16],
    start: u16,
    budget: u16,
    one: &mut [u8],
    other: &mut [u8],
    trace: &mut [u16],
    twin: &mut [u16],
) -> Twins
    ensures trace_after { outcome (run_report result.one) (one.new ∷ trace.new ∷ []) ≡ run_outcome listing.now start budget one.old trace.old }
    ensures twin_after { outcome (run_report result.other) (other.new ∷ twin.new ∷ []) ≡ run_outcome listing.now start budget other.old twin.old }
    ensures same_calls { Twin listing.now start budget one.old other.old trace.old twin.old → SameCalls trace.old twin.old (outcome (run_report result.one) (one.new ∷ trace.new ∷ [])) (outcome (run_report result.other) (other.new ∷ twin.new ∷ [])) }
{
    Twins {
        one: machine::run(listing, start, budget, one, trace),
        other: machine::run(listing, start, budget, other, twin),
    }
}

#[derive(Clone, Copy)]
pub struct Followed {
    pub source: Result<Ending, Refusal>,
    pub expansion: Result<Ending, Refusal>,
    pub back: Result<u32, Refusal>,
}

// Runs a program from a bit state and a listing from an image, and goes the way back from what the listing left. On a listing that `expand`
// wrote of the program in that layout, from the same source line, and after whole source lines, the listing stands where the program
// stands, and the way back gives the program's state.
pub fn follow(
    position: u8,
    spacing: u8,
    program: &[u16],
    line: u16,
    steps: u16,
    bits: &mut [u8],
    trace: &mut [u16],
    listing: &[u16],
    start: u16,
    span: u16,
    image: &mut [u8],
    shown: &mut [u16],
    back: &mut [u8],
) -> Followed
    ensures trace_after { outcome (run_report result.source) (bits.new ∷ trace.new ∷ []) ≡ run_outcome program.now line steps bits.old trace.old }
    ensures shown_after { outcome (run_report result.expansion) (image.new ∷ shown.new ∷ []) ≡ run_outcome listing.now start span image.old shown.old }
    ensures back_after { outcome (report result.back) (back.new ∷ []) ≡ from_image_outcome position spacing image.new back.old }
    ensures following_calls { Followable position spacing program.now line steps bits.old trace.old listing.now start span image.old shown.old back.old → FollowingCalls position spacing program.now span (outcome (run_report result.source) (bits.new ∷ trace.new ∷ [])) (outcome (run_report result.expansion) (image.new ∷ shown.new ∷ [])) × (back.new ≡ bits.new) }
{
    Followed {
        source: machine::run(program, line, steps, bits, trace),
        expansion: machine::run(listing, start, span, image, shown),
        back: images::from_image(position, spacing, image, back),
    }
}
