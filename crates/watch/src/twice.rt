// Request 09, 'trace and state are those without the list', said of the functions that run. specs/Claims states it of the two calls, and the
// function here, which makes both, promises it.
ghost use Rattle.std.specs.Prelude.{◌≡◌, [], ◌∷◌, map};
ghost use Rattle.model.specs.Answers.{run_report, outcome};
ghost use Rattle.model.specs.Run.{run_outcome};
ghost use Rattle.watch.specs.Watches.{unused, both, watch_outcome};
ghost use Rattle.watch.specs.Claims.{SameCalls};

use crate::{MAX_WATCHES, Seen, watch_places};
use model::{Ending, Refusal};

#[derive(Clone, Copy)]
pub struct Twice {
    pub seen: Seen,
    pub alone: Result<Ending, Refusal>,
}

// A run that watches eight places, and one without watches, on `lone` and `rows`. Where both are lent the same, and no place is refused,
// answers, states and traces are equal.
pub fn run_twice(
    program: &[u16],
    start: u16,
    budget: u16,
    state: &mut [u8],
    trace: &mut [u16],
    places: [u16; MAX_WATCHES],
    lone: &mut [u8],
    rows: &mut [u16],
) -> Twice
    ensures watched { both (outcome (run_report result.seen.answer) (state.new ∷ trace.new ∷ [])) result.seen.watches ≡ watch_outcome program.now start budget state.old trace.old (map unused places) }
    ensures alone { outcome (run_report result.alone) (lone.new ∷ rows.new ∷ []) ≡ run_outcome program.now start budget lone.old rows.old }
    ensures same_calls { SameCalls places (state.old ∷ trace.old ∷ []) (lone.old ∷ rows.old ∷ []) (outcome (run_report result.seen.answer) (state.new ∷ trace.new ∷ [])) (outcome (run_report result.alone) (lone.new ∷ rows.new ∷ [])) }
{
    let seen = watch_places(program, start, budget, state, trace, places);
    let alone = machine::run(program, start, budget, lone, rows);
    Twice { seen, alone }
}
