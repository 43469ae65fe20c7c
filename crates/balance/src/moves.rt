// Request 06, said of the functions that run. specs/MoveClaims states its claims of the calls of `move_image` and `run` on what `expand` and
// `to_image` wrote, proofs/MoveCalls proves them, and the functions here, which make these calls, promise them.
ghost use Rattle.std.specs.Prelude.{◌≡◌, [], ◌∷◌, length};
ghost use Rattle.model.specs.Limits.{state_size};
ghost use Rattle.model.specs.Answers.{report, run_report, counted, outcome};
ghost use Rattle.model.specs.Run.{run_outcome};
ghost use Rattle.model.specs.Images.{to_image_outcome, from_image_outcome};
ghost use Rattle.images.specs.Moving.{move_outcome};
ghost use Rattle.images.specs.Claims.{Cleared};
ghost use Rattle.balance.specs.EntryClaims.{SameCalls};
ghost use Rattle.balance.specs.MoveClaims.{state_left, Continuing, ContinuedCalls, MovedTwin};

use super::Twins;
use model::{Ending, Refusal};

#[derive(Clone, Copy)]
pub struct ByBits {
    pub moved: Result<u32, Refusal>,
    pub bits: Result<u32, Refusal>,
    pub image: Result<u32, Refusal>,
}

// Moves an image, and goes the way back in its layout and from there to the image in the new one. Where the move is not refused, and a state is
// lent for the bits and for the image, neither are these, and the image is the moved one.
pub fn move_by_bits(
    old_position: u8,
    old_spacing: u8,
    new_position: u8,
    new_spacing: u8,
    from: &[u8],
    moved: &mut [u8],
    bits: &mut [u8],
    image: &mut [u8],
) -> ByBits
    ensures moved_after { outcome (report result.moved) (moved.new ∷ []) ≡ move_outcome old_position old_spacing new_position new_spacing from.now moved.old }
    ensures bits_after { outcome (report result.bits) (bits.new ∷ []) ≡ from_image_outcome old_position old_spacing from.now bits.old }
    ensures image_after { outcome (report result.image) (image.new ∷ []) ≡ to_image_outcome new_position new_spacing bits.new image.old }
    ensures bits_value { report result.moved ≡ counted state_size → length bits.old ≡ state_size → length image.old ≡ state_size → (report result.bits ≡ counted state_size) × (report result.image ≡ counted state_size) × (image.new ≡ moved.new) }
{
    ByBits {
        moved: images::move_image(
            old_position,
            old_spacing,
            new_position,
            new_spacing,
            from,
            moved,
        ),
        bits: images::from_image(old_position, old_spacing, from, bits),
        image: images::to_image(new_position, new_spacing, bits, image),
    }
}

#[derive(Clone, Copy)]
pub struct ThereAndBack {
    pub there: Result<u32, Refusal>,
    pub back: Result<u32, Refusal>,
}

// Moves an image to another layout and back. Where the first move is not refused, and the second is lent a state, that is not refused
// either, and leaves the first image with r1 to r3 cleared.
pub fn move_home(
    old_position: u8,
    old_spacing: u8,
    new_position: u8,
    new_spacing: u8,
    image: &[u8],
    moved: &mut [u8],
    home: &mut [u8],
) -> ThereAndBack
    ensures moved_after { outcome (report result.there) (moved.new ∷ []) ≡ move_outcome old_position old_spacing new_position new_spacing image.now moved.old }
    ensures home_after { outcome (report result.back) (home.new ∷ []) ≡ move_outcome new_position new_spacing old_position old_spacing moved.new home.old }
    ensures back_value { report result.there ≡ counted state_size → length home.old ≡ state_size → (report result.back ≡ counted state_size) × Cleared image.now home.new }
{
    let there = images::move_image(
        old_position,
        old_spacing,
        new_position,
        new_spacing,
        image,
        moved,
    );
    let back = images::move_image(
        new_position,
        new_spacing,
        old_position,
        old_spacing,
        moved,
        home,
    );
    ThereAndBack { there, back }
}

#[derive(Clone, Copy)]
pub struct RanAndMoved {
    pub run: Result<Ending, Refusal>,
    pub moved: Result<u32, Refusal>,
}

// Runs a listing and moves what it left.
pub fn run_and_move(
    old_position: u8,
    old_spacing: u8,
    new_position: u8,
    new_spacing: u8,
    listing: &[u16],
    start: u16,
    budget: u16,
    image: &mut [u8],
    trace: &mut [u16],
    moved: &mut [u8],
) -> RanAndMoved
    ensures trace_after { outcome (run_report result.run) (image.new ∷ trace.new ∷ []) ≡ run_outcome listing.now start budget image.old trace.old }
    ensures moved_after { outcome (report result.moved) (moved.new ∷ []) ≡ move_outcome old_position old_spacing new_position new_spacing image.new moved.old }
{
    RanAndMoved {
        run: machine::run(listing, start, budget, image, trace),
        moved: images::move_image(
            old_position,
            old_spacing,
            new_position,
            new_spacing,
            image,
            moved,
        ),
    }
}

#[derive(Clone, Copy)]
pub struct ContinuedRun {
    pub before: RanAndMoved,
    pub after: Result<Ending, Refusal>,
    pub whole: RanAndMoved,
}

// Runs a listing from an image, moves what it left, and goes on in another listing; beside it, runs the first listing once more from the same image,
// as far as both together, and moves what that left. On the listings that `expand` wrote of one program in the two layouts, over whole source
// lines, and from the same source line where the move is, both have the same in the end, scratch excepted.
pub fn continue_run(
    old_position: u8,
    old_spacing: u8,
    new_position: u8,
    new_spacing: u8,
    listing: &[u16],
    start: u16,
    budget: u16,
    image: &mut [u8],
    trace: &mut [u16],
    moved: &mut [u8],
    new_listing: &[u16],
    new_start: u16,
    new_budget: u16,
    new_trace: &mut [u16],
    whole_budget: u16,
    whole_image: &mut [u8],
    whole_trace: &mut [u16],
    whole_moved: &mut [u8],
) -> ContinuedRun
    ensures trace_after { outcome (run_report result.before.run) (image.new ∷ trace.new ∷ []) ≡ run_outcome listing.now start budget image.old trace.old }
    ensures moved_value { report result.before.moved ≡ (move_outcome old_position old_spacing new_position new_spacing image.new moved.old).answer }
    ensures new_trace_after { outcome (run_report result.after) (moved.new ∷ new_trace.new ∷ []) ≡ run_outcome new_listing.now new_start new_budget (state_left (move_outcome old_position old_spacing new_position new_spacing image.new moved.old)) new_trace.old }
    ensures whole_trace_after { outcome (run_report result.whole.run) (whole_image.new ∷ whole_trace.new ∷ []) ≡ run_outcome listing.now start whole_budget whole_image.old whole_trace.old }
    ensures whole_moved_after { outcome (report result.whole.moved) (whole_moved.new ∷ []) ≡ move_outcome old_position old_spacing new_position new_spacing whole_image.new whole_moved.old }
    ensures continued_calls { (C : Continuing old_position old_spacing new_position new_spacing listing.now start budget image.old trace.old moved.old new_listing.now new_start new_budget new_trace.old whole_budget whole_image.old whole_trace.old whole_moved.old) → ContinuedCalls old_position old_spacing new_position new_spacing C.program C.move_line C.end_line budget new_budget whole_budget (run_report result.before.run) (report result.before.moved) (run_report result.after) (run_report result.whole.run) (report result.whole.moved) moved.new whole_moved.new }
{
    let before = run_and_move(
        old_position,
        old_spacing,
        new_position,
        new_spacing,
        listing,
        start,
        budget,
        image,
        trace,
        moved,
    );
    let after = machine::run(new_listing, new_start, new_budget, moved, new_trace);
    let whole = run_and_move(
        old_position,
        old_spacing,
        new_position,
        new_spacing,
        listing,
        start,
        whole_budget,
        whole_image,
        whole_trace,
        whole_moved,
    );
    ContinuedRun {
        before,
        after,
        whole,
    }
}

#[derive(Clone, Copy)]
pub struct MovedTwins {
    pub one: Result<u32, Refusal>,
    pub other: Result<u32, Refusal>,
    pub runs: Twins,
}

// Moves two images to one layout, each from its own, and runs a listing from both. Where neither move is refused and the images agree in the
// public places, on a listing that `expand` wrote in that layout, from the start of a source line, the answers are equal and so are the
// rows written.
pub fn moved_twins(
    one_position: u8,
    one_spacing: u8,
    other_position: u8,
    other_spacing: u8,
    position: u8,
    spacing: u8,
    one_image: &[u8],
    other_image: &[u8],
    one: &mut [u8],
    other: &mut [u8],
    listing: &[u16],
    start: u16,
    budget: u16,
    trace: &mut [u16],
    twin: &mut [u16],
) -> MovedTwins
    ensures one_value { report result.one ≡ (move_outcome one_position one_spacing position spacing one_image.now one.old).answer }
    ensures other_value { report result.other ≡ (move_outcome other_position other_spacing position spacing other_image.now other.old).answer }
    ensures trace_after { outcome (run_report result.runs.one) (one.new ∷ trace.new ∷ []) ≡ run_outcome listing.now start budget (state_left (move_outcome one_position one_spacing position spacing one_image.now one.old)) trace.old }
    ensures twin_after { outcome (run_report result.runs.other) (other.new ∷ twin.new ∷ []) ≡ run_outcome listing.now start budget (state_left (move_outcome other_position other_spacing position spacing other_image.now other.old)) twin.old }
    ensures same_calls { report result.one ≡ counted state_size → report result.other ≡ counted state_size → MovedTwin position spacing listing.now start budget one_image.now other_image.now trace.old twin.old → SameCalls trace.old twin.old (outcome (run_report result.runs.one) (one.new ∷ trace.new ∷ [])) (outcome (run_report result.runs.other) (other.new ∷ twin.new ∷ [])) }
{
    MovedTwins {
        one: images::move_image(one_position, one_spacing, position, spacing, one_image, one),
        other: images::move_image(
            other_position,
            other_spacing,
            position,
            spacing,
            other_image,
            other,
        ),
        runs: super::twin_runs(listing, start, budget, one, other, trace, twin),
    }
}
