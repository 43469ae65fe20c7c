// Request 09 of document 02: a list of up to eight watches, each naming a place, is lent to a run and brought up to date after each step.
// The list is a slice of structs, and what is done to one watch is `fresh` and `reached`. Callers with the places alone have `watch_places`.

#![tactic(auto)]

ghost use Rattle.std.specs.Prelude.{◌≡◌, ◌*◌, ◌<◌, ◌≤◌, ◌||◌, [], ◌∷◌, map, length, nat_le, nat_lt};
ghost use Rattle.model.specs.Answers.{report, ended, run_report, counted, outcome};
ghost use Rattle.model.specs.Stored.{line_count};
ghost use Rattle.watch.specs.Watches.{unused, unwatchable, both, watch_outcome};
ghost use Rattle.watch.specs.Noting.{fresh, reached, noted, admission};

use machine::steps::Run;
use machine::tables::{Masks, Weights};
use model::{Condition, Ending, LINE_WIDTH, Refusal, STATE_SIZE};

pub mod twice;

// The most watches of a run.
pub const MAX_WATCHES: usize = 8;

// A watch names a place, as in the state: register N, or 32 + n for cell n. After a run it holds the place's last value, how many writes
// reached it, and the step of the last one: 0 for none, the first step is 1.
#[repr(C)]
#[derive(Clone, Copy)]
pub struct Watch {
    pub place: u16,
    pub value: u8,
    pub writes: u16,
    pub step: u16,
}

// One watch before the first step: nothing but its place is kept.
fn fresh(w: Watch, start: &[u8]) -> Watch
    ensures { result ≡ fresh start.now w }
{
    Watch {
        value: machine::read(start, w.place as usize),
        ..unused(w.place)
    }
}

// One watch after step `step`, which wrote its place and left `state`.
fn reached(w: Watch, state: &[u8], step: u16) -> Watch
    ensures { result ≡ reached state.now step w }
{
    Watch {
        place: w.place,
        value: machine::read(state, w.place as usize),
        writes: w.writes.wrapping_add(1),
        step,
    }
}

// Every watch before the first step.
fn begin(watches: &mut [Watch], state: &[u8])
    ensures { watches.new ≡ map (fresh state.now) watches.old }
{
    for w in watches.iter_mut() {
        *w = fresh(*w, state);
    }
}

// Every watch after a step that wrote `place`. Most steps reach none, and asking first is quicker than writing each watch again.
fn note(watches: &mut [Watch], state: &[u8], place: usize, step: u16)
    ensures { watches.new ≡ map (noted state.now place step) watches.old }
{
    for w in watches.iter_mut() {
        if (w.place as usize) == place {
            *w = reached(*w, state, step);
        }
    }
}

// Whether 26 holds: more than eight watches, or a place past the state.
fn unwatchable(watches: &[Watch]) -> bool
    ensures { result ≡ unwatchable watches.now }
{
    let too_many = watches.len() > MAX_WATCHES;
    too_many || watches.iter().any(|w| (w.place as usize) >= STATE_SIZE)
}

// The refusals of a run, then 26; else the count of lines.
fn admit(
    program: &[u16],
    budget: u16,
    size: usize,
    room: usize,
    wrong: bool,
) -> Result<u32, Refusal>
    ensures { report result ≡ admission program.now budget size room wrong }
{
    let count = machine::admit(program, budget, size, room)?;
    if wrong {
        return Err(Refusal {
            condition: Condition::WrongWatch,
            line: 0,
        });
    }
    Ok(count)
}

// At most `budget` steps of a program that neither the run nor its watches refuse. After each step the watches are brought up to date with it.
// Beside `machine::run_lines`, for the two calls more: of watches that a closure wrote in such a loop, a proof afterwards knows nothing.
fn run_lines(
    program: &[u16],
    start: u16,
    budget: u16,
    state: &mut [u8],
    trace: &mut [u16],
    watches: &mut [Watch],
) -> Ending
    requires { admission program.now budget (length state.old) (length trace.old) (unwatchable watches.old) ≡ counted (line_count program.now) }
    ensures { both (outcome (ended result) (state.new ∷ trace.new ∷ [])) watches.new ≡ watch_outcome program.now start budget state.old trace.old watches.old }
{
    let count = program.len() / LINE_WIDTH;
    let masks = Masks::all();
    let weights = Weights::all();
    let mut run = Run::new(start);
    begin(watches, state);
    while (run.counter as usize) < count {
        if budget <= run.steps {
            return run.spent();
        }
        let stepped = run.step(program, &masks, &weights, state, trace);
        run = stepped.run;
        note(watches, state, stepped.place, run.steps);
    }
    run.halted()
}

// A run with watches. Answer, state and trace are those of `run`; 26 comes after its refusals. A refusal leaves everything lent as it is;
// else what the watches held before, their place aside, does not matter.
pub fn run_watched(
    program: &[u16],
    start: u16,
    budget: u16,
    state: &mut [u8],
    trace: &mut [u16],
    watches: &mut [Watch],
) -> Result<Ending, Refusal>
    ensures { both (outcome (run_report result) (state.new ∷ trace.new ∷ [])) watches.new ≡ watch_outcome program.now start budget state.old trace.old watches.old }
{
    let wrong = unwatchable(watches);
    admit(program, budget, state.len(), trace.len(), wrong)?;
    Ok(run_lines(program, start, budget, state, trace, watches))
}

// A fresh watch of a place.
fn unused(place: u16) -> Watch
    ensures { result ≡ unused place }
{
    Watch {
        place,
        value: 0,
        writes: 0,
        step: 0,
    }
}

// What a watched run answers, and its watches.
#[derive(Clone, Copy)]
pub struct Seen {
    pub answer: Result<Ending, Refusal>,
    pub watches: [Watch; MAX_WATCHES],
}

// A run that watches eight places, for callers that lend no watches. A place may be named more than once, so for fewer than eight one is.
pub fn watch_places(
    program: &[u16],
    start: u16,
    budget: u16,
    state: &mut [u8],
    trace: &mut [u16],
    places: [u16; MAX_WATCHES],
) -> Seen
    ensures { both (outcome (run_report result.answer) (state.new ∷ trace.new ∷ [])) result.watches ≡ watch_outcome program.now start budget state.old trace.old (map unused places) }
{
    let mut watches = places.map(unused);
    let answer = run_watched(program, start, budget, state, trace, &mut watches);
    Seen { answer, watches }
}
