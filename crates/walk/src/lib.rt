// Req 01, the verdict on patched listings: a walk over a stored program whose steps work on sets of values. The crate `sets` has the
// definitions and what a verdict means, `choices` the bytes of sets and what a line does in all states of the sets.

#![tactic(auto)]

ghost use Rattle.std.specs.Prelude.{◌≡◌, [], ◌∷◌, map, ℕ, ◌<◌, ◌≤◌, T, length, get_or};
ghost use Rattle.model.specs.Limits.{state_size, max_lines};
ghost use Rattle.model.specs.Places.{kind};
ghost use Rattle.model.specs.Step.{meaning, next};
ghost use Rattle.model.specs.Stored.{operand_of, line_count, lines};
ghost use Rattle.sets.specs.Walk.{max_values, listed, lists_of, sets_of, sized, values, distinct, heads, branches, loose, unsettled, written, onto, walk, told, verdict_report};
ghost use Rattle.sets.specs.Claims.{Full};
ghost use Rattle.sets.specs.Addresses.{leads};
ghost use Rattle.choices.specs.Gathering.{line_by};
ghost use Rattle.walk.specs.Moves.{moves};
ghost use Rattle.walk.specs.declared.Move.TheVariants.{To};

use choices::bus::{Bus, is_met, lead};
use choices::bytes::{ROOM, is_overfull, is_several, note, put_set, size_of, value_of};
use choices::{base_of, explore};
use machine::tables::Weights;
use model::{Condition, LINE_WIDTH, Mark, Opcode, ROW_WIDTH, Refusal, STATE_SIZE};
use sets::{MAX_VALUES, SET_WIDTH, SETS_SIZE, Verdict};

// What one step on sets answers: the next counter, or how the walk ends. These are three ways, and only the last is a refusal.
#[derive(Clone, Copy)]
enum Move {
    To(u16),
    Leaks,
    Refuses(Condition),
}

// beq, bne.
fn is_branch(opcode: Opcode) -> bool
    ensures { result ≡ branches opcode }
{
    matches!(opcode, Opcode::Beq | Opcode::Bne)
}

// What the values of a place mean as an argument of a line of that mark, each once; in an unmarked line they are the values.
fn distinct_at(mark: Mark, sets: &[u8; SETS_SIZE], i: usize) -> [u8; ROOM]
    ensures { (listed result ≡ distinct (map (meaning mark (kind i)) (values (lists_of sets.now) i))) × (get_or result 0 0 ≤ max_values) }
{
    let mut found = [0u8; ROOM];
    for j in 0..size_of(sets, i) {
        note(&mut found, machine::argument(mark, i, value_of(sets, i, j)));
    }
    found
}

// Whether an argument of a line of that mark or its base has several values.
fn is_loose(mark: Mark, code: u16, sets: &[u8; SETS_SIZE], state: &[u8; STATE_SIZE]) -> bool
    requires { state.now ≡ heads (lists_of sets.now) }
    ensures { result ≡ loose (lists_of sets.now) mark (operand_of code) }
{
    is_several(sets, base_of(code))
        || 1 < distinct_at(mark, sets, machine::place_at(code, state))[0]
}

// 21: a branch argument, its base or a destination's base has several values.
fn is_unsettled(line: &[u16; LINE_WIDTH], sets: &[u8; SETS_SIZE], state: &[u8; STATE_SIZE]) -> bool
    requires { state.now ≡ heads (lists_of sets.now) }
    ensures { result ≡ unsettled (lists_of sets.now) (line_by line.now) }
{
    let mark = coding::mark_of(line[0]);
    is_several(sets, base_of(line[2]))
        || is_branch(coding::opcode_of(line[1]))
            && (is_loose(mark, line[3], sets, state) || is_loose(mark, line[4], sets, state))
}

// After a line whose results were found: the bus, the written set and its first value; and the next counter.
fn go_on(
    line: &[u16; LINE_WIDTH],
    counter: u16,
    sets: &mut [u8; SETS_SIZE],
    state: &mut [u8; STATE_SIZE],
    bus: &mut Bus,
    found: &[u8; ROOM],
) -> u16
    requires { (counter < 65535) × (state.old ≡ heads (lists_of sets.old)) × Full (lists_of sets.old) × (0 < length bus.old) × (get_or found.now 0 0 ≤ max_values) × (listed found.now ≡ written (lists_of sets.old) (line_by line.now)) }
    ensures value { result ≡ next (line_by line.now) counter (heads (lists_of sets.old)) }
    ensures sets_after { (lists_of sets.new ≡ onto (lists_of sets.old) (line_by line.now)) × (state.new ≡ heads (lists_of sets.new)) }
    ensures bus_after { (bus.new ≡ leads (lists_of sets.old) bus.old (line_by line.now)) × (0 < length bus.new) }
{
    lead(line, sets, bus);
    let next = machine::next_of(line[0], line[1], line[3], line[4], line[5], counter, state);
    let at = machine::place_at(line[2], state);
    put_set(sets, at, found);
    machine::write(state, at, found[1]);
    next
}

// One step on sets. Where the walk goes on, the sets, their first values and those of the bus are those after it.
fn step(
    line: &[u16; LINE_WIDTH],
    counter: u16,
    sets: &mut [u8; SETS_SIZE],
    state: &mut [u8; STATE_SIZE],
    bus: &mut Bus,
    weights: &Weights,
) -> Move
    requires { (counter < 65535) × (state.old ≡ heads (lists_of sets.old)) × Full (lists_of sets.old) × (0 < length bus.old) }
    ensures value { result ≡ moves (lists_of sets.old) bus.old (line_by line.now) counter }
    ensures sets_after { (n : ℕ) → result ≡ To n → (lists_of sets.new ≡ onto (lists_of sets.old) (line_by line.now)) × (state.new ≡ heads (lists_of sets.new)) }
    ensures bus_after { (n : ℕ) → result ≡ To n → (bus.new ≡ leads (lists_of sets.old) bus.old (line_by line.now)) × (0 < length bus.new) }
{
    if is_unsettled(line, sets, state) {
        return Move::Refuses(Condition::SeveralValues);
    }
    let mut row = [0u16; ROW_WIDTH];
    let mut found = [0u8; ROOM];
    let leak = explore(
        line, counter, &mut row, 0, sets, state, &mut found, false, weights,
    );
    if is_overfull(&found) {
        return Move::Refuses(Condition::TooManyValues);
    }
    if leak || !is_met(line, sets, bus) {
        return Move::Leaks;
    }
    Move::To(go_on(line, counter, sets, state, bus, &found))
}

// At most `budget` steps on sets of a checked program of `count` lines, the bus at 0.
fn walk_lines(
    program: &[u16],
    count: u16,
    budget: u16,
    sets: &mut [u8; SETS_SIZE],
    state: &mut [u8; STATE_SIZE],
) -> Result<Verdict, Refusal>
    requires { (count ≡ line_count program.now) × (count ≤ max_lines) × (state.old ≡ heads (lists_of sets.old)) × Full (lists_of sets.old) }
    ensures { result ≡ walk (lines program.now) budget 0 0 (lists_of sets.old) (0 ∷ []) }
{
    let weights = Weights::all();
    let mut bus = Bus::holding(0);
    let mut counter: u16 = 0;
    let mut steps: u16 = 0;
    while counter < count {
        if budget <= steps {
            return Ok(Verdict::Spent { counter, steps });
        }
        let line = coding::numbers_at(program, counter as usize);
        match step(&line, counter, sets, state, &mut bus, &weights) {
            Move::To(next) => {
                counter = next;
                steps += 1;
            }
            Move::Leaks => {
                return Ok(Verdict::Leak {
                    line: counter,
                    steps,
                });
            }
            Move::Refuses(condition) => {
                return Err(Refusal {
                    condition,
                    line: counter,
                });
            }
        }
    }
    Ok(Verdict::Balanced { counter, steps })
}

// Whether each set has 1 to 16 values.
fn is_sized(sets: &[u8; SETS_SIZE]) -> bool
    ensures { result ≡ sized state_size sets.now }
{
    for i in 0..STATE_SIZE {
        let n = sets[SET_WIDTH * i] as usize;
        if n == 0 || MAX_VALUES < n {
            return false;
        }
    }
    true
}

// The sets that are walked on, each value once, and the state of their first values.
fn take_sets(sets: &[u8; SETS_SIZE], own: &mut [u8; SETS_SIZE], state: &mut [u8; STATE_SIZE])
    requires { T (sized state_size sets.now) }
    ensures { (lists_of own.new ≡ sets_of sets.now) × (state.new ≡ heads (lists_of own.new)) }
{
    for i in 0..STATE_SIZE {
        let found = distinct_at(Mark::Unmarked, sets, i);
        put_set(own, i, &found);
        state[i] = found[1];
    }
}

// The verdict on a stored program, from sets that are left alone, with a budget of steps.
pub fn judge(program: &[u16], sets: &[u8], budget: u16) -> Result<Verdict, Refusal>
    ensures { told result ≡ verdict_report program.now sets.now budget }
{
    let count = coding::check_program(program)?;
    let Ok(sets) = <&[u8; SETS_SIZE]>::try_from(sets) else {
        return Err(Refusal {
            condition: Condition::WrongLength,
            line: 0,
        });
    };
    if !is_sized(sets) {
        return Err(Refusal {
            condition: Condition::TooManyValues,
            line: 0,
        });
    }
    let mut own = [0u8; SETS_SIZE];
    let mut state = [0u8; STATE_SIZE];
    take_sets(sets, &mut own, &mut state);
    walk_lines(program, count as u16, budget, &mut own, &mut state)
}
