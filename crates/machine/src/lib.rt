// 'One step' of document 01: what a line reads, makes and writes, one step with its trace row, and a run of steps (conditions 18, 20).
// A step works on the stored numbers themselves, by the tests that decode them, and makes no line.
// Reading and writing are total: past the end of a state 0 is read and nothing written, so no operand has to be in range.

#![tactic(auto)]

ghost use Rattle.std.specs.Prelude.{◌≡◌, suc, ◌+◌, ◌-◌, ◌*◌, ◌/◌, ◌%◌, ◌^◌, ◌<◌, ◌≤◌, [], ◌∷◌, length, if◌then◌else◌, slice_index, slice_set};
ghost use Rattle.model.specs.Limits.{max_lines, row_width, state_size};
ghost use Rattle.model.specs.Answers.{report, ended, run_report, outcome};
ghost use Rattle.model.specs.Stored.{registers, opcode_of, operand_of, target_of, line_of, line_count};
ghost use Rattle.model.specs.Step.{weight, distance, shift_by, negated, alu, taken, target_line, meaning, next, after, bus_after, row};
ghost use Rattle.model.specs.Places.{kind, place};
ghost use Rattle.model.specs.Run.{run_outcome};
ghost use Rattle.machine.specs.Loop.{fetch_of, arguments_of, CellBy, on_bus_at, addresses, row_of, effect_of, jumps, put_row, machine, admission, run_from};

use model::{Condition, Ending, LINE_WIDTH, Mark, Opcode, ROW_WIDTH, Refusal, STATE_SIZE};
use steps::Run;
use tables::{Masks, Weights};

pub mod steps;
pub mod tables;

pub use tables::PLACES;

// The Hamming distance.
#[tactic(auto, unfolding(model::specs::Step::distance))]
pub fn distance(x: u16, y: u16) -> u16
    ensures { result ≡ distance x y }
{
    u16::count_ones(x ^ y) as u16
}

#[tactic(auto, unfolding(model::specs::Step::negated))]
fn negated(mark: Mark, x: u8) -> u8
    ensures { result ≡ negated mark x }
{
    match mark {
        Mark::Unmarked => 255 - x,
        Mark::Marked => x ^ 1,
    }
}

// The shift rule, for both directions: a count is taken modulo 8.
fn shifted(left: bool, x: u8, y: u8) -> u8
    ensures { result ≡ (if left then shift_by y (λ n. x * 2 ^ n % 256) else shift_by y (λ n. x / 2 ^ n)) }
{
    let n = y % 8;
    if left { x << n } else { x >> n }
}

// What a line writes, by the number of its opcode: not, mov, and, orr, xor, lsl, lsr, add and mul are 2 to 10. Public addition wraps at 256.
// By the number, and so `is_taken`: a run whose steps make an `Opcode` of it first takes an eighth longer.
#[tactic(auto, unfolding(model::specs::Step::alu))]
fn alu(mark: Mark, o: u16, x: u8, y: u8) -> u8
    ensures { result ≡ alu mark (opcode_of o) x y }
{
    match o {
        2 => negated(mark, x),
        3 => x,
        4 => x & y,
        5 => x | y,
        6 => x ^ y,
        7 => shifted(true, x, y),
        8 => shifted(false, x, y),
        9 => x.wrapping_add(y),
        10 => x.wrapping_mul(y),
        _ => 0,
    }
}

// Whether a line goes to its target: jmp, beq and bne are 1, 11 and 12.
#[tactic(auto, unfolding(model::specs::Step::taken))]
fn is_taken(o: u16, x: u8, y: u8) -> bool
    ensures { result ≡ taken (opcode_of o) x y }
{
    match o {
        1 => true,
        11 => x == y,
        12 => x != y,
        _ => false,
    }
}

// Whether a line may go to its target.
fn may_jump(opcode: Opcode) -> bool
    ensures { result ≡ jumps opcode }
{
    matches!(opcode, Opcode::Jmp | Opcode::Beq | Opcode::Bne)
}

// The line that a target's number names; 0 where it names none.
fn target_line(code: u16) -> u16
    ensures { result ≡ target_line (target_of code) }
{
    code.saturating_sub(1)
}

// The counter after a line.
fn advanced(jumps: bool, target: u16, counter: u16) -> u16
    requires { counter < 65535 }
    ensures { result ≡ (if jumps then target else suc counter) }
{
    if jumps { target } else { counter + 1 }
}

// The byte at a place, 0 past the end.
pub fn read(state: &[u8], at: usize) -> u8
    ensures { result ≡ slice_index state.now at }
{
    state.get(at).copied().unwrap_or(0)
}

// A byte at a place; past the end nothing is written. By index: after a write through `get_mut` a proof knows the state's length alone.
pub fn write(state: &mut [u8], at: usize, byte: u8)
    ensures { state.new ≡ slice_set state.old at byte }
{
    if at < state.len() {
        state[at] = byte;
    }
}

// The cell that n, base and offset in one number, names within its page of `span` cells.
fn indirect(state: &[u8], n: u16, span: u16) -> u16
    requires { (0 < span) × (span ≤ 256) }
    ensures { result ≡ (slice_index state.now (n / span) + n % span) % span }
{
    ((read(state, (n / span) as usize) as u16) + n % span) % span
}

// The place that the number of an operand other than a literal names.
fn place_of(code: u16, state: &[u8]) -> usize
    requires { registers ≤ code }
    ensures { result ≡ place (operand_of code) state.now }
{
    match code {
        ..coding::CELLS => (code - coding::REGISTERS) as usize,
        ..coding::PUBLICS => 32 + ((code - coding::CELLS) as usize),
        ..coding::SENSITIVES => 32 + (indirect(state, code - coding::PUBLICS, 128) as usize),
        ..coding::TABLES => 160 + (indirect(state, code - coding::SENSITIVES, 128) as usize),
        _ => 288 + (indirect(state, code - coding::TABLES, 256) as usize),
    }
}

// The place that an operand's number names, past the state where it names none.
#[tactic(auto, using(crate::proofs::NamedPlaces::no_place))]
pub fn place_at(code: u16, state: &[u8]) -> usize
    ensures { result ≡ place (operand_of code) state.now }
{
    if code < coding::REGISTERS {
        return STATE_SIZE;
    }
    place_of(code, state)
}

// The value of the number of a literal, which is one less; that of an empty field, whose number is 0, is 0 too, as 0 - 1 is in a contract.
fn literal(code: u16) -> u8
    requires { code < registers }
    ensures { result ≡ code - 1 }
{
    code.saturating_sub(coding::LITERALS) as u8
}

// What an operand reads, and its place, past the state where there is none.
#[derive(Clone, Copy)]
struct Fetched {
    at: usize,
    value: u8,
}

// An empty field and a literal are told from all others by one test: most steps fetch both arguments.
fn fetch(code: u16, state: &[u8]) -> Fetched
    ensures { result ≡ fetch_of (operand_of code) state.now }
{
    if code < coding::REGISTERS {
        return Fetched {
            at: STATE_SIZE,
            value: literal(code),
        };
    }
    let at = place_of(code, state);
    Fetched {
        at,
        value: read(state, at),
    }
}

// The two arguments of a line.
#[derive(Clone, Copy)]
struct Arguments {
    first: u8,
    second: u8,
}

// What a byte of a place means as an argument of a line of that mark: in a marked line a public place means its lowest bit.
#[tactic(auto, unfolding(model::specs::Step::meaning))]
pub fn argument(mark: Mark, at: usize, byte: u8) -> u8
    ensures { result ≡ meaning mark (kind at) byte }
{
    match mark {
        Mark::Unmarked => byte,
        Mark::Marked => {
            if coding::is_public(coding::kind_at(at)) {
                byte % 2
            } else {
                byte
            }
        }
    }
}

// The arguments of a line of that mark, of what was fetched.
fn read_arguments(mark: Mark, x: Fetched, y: Fetched) -> Arguments
    ensures { result ≡ arguments_of mark x y }
{
    Arguments {
        first: argument(mark, x.at, x.value),
        second: argument(mark, y.at, y.value),
    }
}

// The arguments of a line of that mark, by the masks.
#[tactic(auto, unfolding(model::specs::Step::meaning))]
fn mask_arguments(mark: Mark, x: Fetched, y: Fetched, masks: &Masks) -> Arguments
    requires { (x.at ≤ state_size) × (y.at ≤ state_size) }
    ensures { result ≡ arguments_of mark x y }
{
    match mark {
        Mark::Unmarked => Arguments {
            first: x.value,
            second: y.value,
        },
        Mark::Marked => Arguments {
            first: masks.kept(x.at, x.value),
            second: masks.kept(y.at, y.value),
        },
    }
}

// What a write replaced: the place as it was named before the write, and the old value there.
#[derive(Clone, Copy)]
struct Replaced {
    at: usize,
    old: u8,
}

fn replace(code: u16, res: u8, state: &mut [u8]) -> Replaced
    ensures replaced { (result.at ≡ place (operand_of code) state.old) × (result.old ≡ slice_index state.old result.at) }
    ensures state_after { state.new ≡ slice_set state.old result.at res }
{
    let at = place_at(code, state);
    let old = read(state, at);
    write(state, at, res);
    Replaced { at, old }
}

// What an operand's address shows on the bus: the bus afterwards, and the address's weight and its distance from the one before.
#[derive(Clone, Copy)]
struct OnBus {
    bus: u16,
    weight: u16,
    distance: u16,
}

// The address of the place that an operand's number names, put on the bus. A number below the cells' names no cell: there is no address, and
// the bus stays. The number is asked and not the place, as it has been asked already to find the place.
fn put_on_bus(code: u16, at: usize, bus: u16, weights: &Weights) -> OnBus
    requires { (at ≤ state_size) × CellBy code at × (bus < addresses) }
    ensures { (result ≡ on_bus_at at bus) × (result.bus < addresses) }
{
    if code < coding::CELLS {
        return OnBus {
            bus,
            weight: 0,
            distance: 0,
        };
    }
    let address = (at - 32) as u16;
    OnBus {
        bus: address,
        weight: weights.by_place[at],
        distance: weights.distance_of(bus, address),
    }
}

// The row of a line: its number, the weight of the written value, its distance from the old one, and the weights and distances of the
// addresses of the first argument, the second and the destination.
fn row_of(
    line: u16,
    old: u8,
    res: u8,
    first: OnBus,
    second: OnBus,
    destination: OnBus,
    weights: &Weights,
) -> [u16; ROW_WIDTH]
    ensures { result ≡ row_of line old res first second destination }
{
    [
        line,
        weights.weight_of(res as u16),
        weights.distance_of(old as u16, res as u16),
        first.weight,
        second.weight,
        destination.weight,
        first.distance,
        second.distance,
        destination.distance,
    ]
}

// What a line does on a state: the value that it writes, the place, past the state where there is none, and the row.
#[derive(Clone, Copy)]
pub struct Effect {
    pub result: u8,
    pub place: usize,
    pub row: [u16; ROW_WIDTH],
}

// The effect of a line, whatever its target; nothing is written. `perform` below does not call it: a run would be twice as slow. One function
// for both would be no shorter: generic in how arguments are read (a walk makes no masks), and answering arguments and bus besides.
pub fn effect_of(
    m: u16,
    o: u16,
    d: u16,
    a: u16,
    b: u16,
    counter: u16,
    bus: u16,
    state: &[u8],
    weights: &Weights,
) -> Effect
    requires { bus < addresses }
    ensures { result ≡ effect_of (line_of m o d a b 0) counter state.now bus }
{
    let mark = coding::mark_of(m);
    let x = fetch(a, state);
    let first = put_on_bus(a, x.at, bus, weights);
    let y = fetch(b, state);
    let second = put_on_bus(b, y.at, first.bus, weights);
    let args = read_arguments(mark, x, y);
    let result = alu(mark, o, args.first, args.second);
    let at = place_at(d, state);
    let destination = put_on_bus(d, at, second.bus, weights);
    let old = read(state, at);
    let row = row_of(counter, old, result, first, second, destination, weights);
    Effect {
        result,
        place: at,
        row,
    }
}

// The counter after a line, whatever its destination. A line that goes on whatever its arguments does not read them.
pub fn next_of(m: u16, o: u16, a: u16, b: u16, t: u16, counter: u16, state: &[u8]) -> u16
    requires { counter < 65535 }
    ensures { result ≡ next (line_of m o 0 a b t) counter state.now }
{
    let opcode = coding::opcode_of(o);
    if !may_jump(opcode) {
        return counter + 1;
    }
    let mark = coding::mark_of(m);
    let x = fetch(a, state);
    let y = fetch(b, state);
    let args = read_arguments(mark, x, y);
    let jumps = is_taken(o, args.first, args.second);
    advanced(jumps, target_line(t), counter)
}

// What a step answers: the next counter, the bus, the written place, past the state where there is none, and its trace row.
#[derive(Clone, Copy)]
struct Done {
    next: u16,
    bus: u16,
    place: usize,
    row: [u16; ROW_WIDTH],
}

// The line of six numbers on a state. Arguments and addresses are worked out before the write. Joined to each loop that steps: a run whose
// steps are calls takes half as long again.
#[inline(always)]
fn perform(
    m: u16,
    o: u16,
    d: u16,
    a: u16,
    b: u16,
    t: u16,
    counter: u16,
    bus: u16,
    masks: &Masks,
    weights: &Weights,
    state: &mut [u8],
) -> Done
    requires { (counter < 65535) × (bus < addresses) }
    ensures next_and_row { (result.next ≡ next (line_of m o d a b t) counter state.old) × (result.row ≡ row (line_of m o d a b t) counter state.old bus) }
    ensures bus_after { (result.bus ≡ bus_after (line_of m o d a b t) state.old bus) × (result.bus < addresses) }
    ensures state_after { (state.new ≡ after (line_of m o d a b t) state.old) × (result.place ≡ place (operand_of d) state.old) }
{
    let mark = coding::mark_of(m);
    let x = fetch(a, state);
    let first = put_on_bus(a, x.at, bus, weights);
    let y = fetch(b, state);
    let second = put_on_bus(b, y.at, first.bus, weights);
    let args = mask_arguments(mark, x, y, masks);
    let result = alu(mark, o, args.first, args.second);
    let jumps = is_taken(o, args.first, args.second);
    let next = advanced(jumps, target_line(t), counter);
    let written = replace(d, result, state);
    let destination = put_on_bus(d, written.at, second.bus, weights);
    Done {
        next,
        bus: destination.bus,
        place: written.at,
        row: row_of(
            counter,
            written.old,
            result,
            first,
            second,
            destination,
            weights,
        ),
    }
}

// The numbers of row n, one by one: a run whose rows are written by `copy_from_slice` takes an eighth longer.
fn write_row(trace: &mut [u16], n: usize, row: [u16; ROW_WIDTH])
    requires { row_width * n + row_width ≤ length trace.old }
    ensures { trace.new ≡ put_row trace.old n row }
{
    let k = ROW_WIDTH * n;
    for i in 0..ROW_WIDTH {
        trace[k + i] = row[i];
    }
}

// At most `budget` steps of a checked program. The two ends are two tests: with one test of both in the loop, a step takes a fifth longer.
fn run_lines(
    program: &[u16],
    start: u16,
    budget: u16,
    state: &mut [u8],
    trace: &mut [u16],
) -> Ending
    requires { (line_count program.now ≤ max_lines) × (row_width * budget ≤ length trace.old) }
    ensures { outcome (ended result) (state.new ∷ trace.new ∷ []) ≡ run_from program.now (line_count program.now) budget (machine (record { counter = start; steps = 0; bus = 0 }) state.old trace.old) }
{
    let count = program.len() / LINE_WIDTH;
    let masks = Masks::all();
    let weights = Weights::all();
    let mut run = Run::new(start);
    while (run.counter as usize) < count {
        if budget <= run.steps {
            return run.spent();
        }
        run = run.step(program, &masks, &weights, state, trace).run;
    }
    run.halted()
}

// A run's refusals, from the sizes of the state and the trace store; else the count of lines.
pub fn admit(program: &[u16], budget: u16, size: usize, room: usize) -> Result<u32, Refusal>
    ensures { report result ≡ admission program.now budget size room }
{
    let count = coding::check_program(program)?;
    if size != STATE_SIZE {
        return Err(Refusal {
            condition: Condition::WrongLength,
            line: 0,
        });
    }
    if room < ROW_WIDTH * (budget as usize) {
        return Err(Refusal {
            condition: Condition::TraceTooShort,
            line: 0,
        });
    }
    Ok(count)
}

// The run of a stored program from a start counter, with a budget of steps. A refusal leaves state and trace as they are.
pub fn run(
    program: &[u16],
    start: u16,
    budget: u16,
    state: &mut [u8],
    trace: &mut [u16],
) -> Result<Ending, Refusal>
    ensures { outcome (run_report result) (state.new ∷ trace.new ∷ []) ≡ run_outcome program.now start budget state.old trace.old }
{
    admit(program, budget, state.len(), trace.len())?;
    Ok(run_lines(program, start, budget, state, trace))
}
