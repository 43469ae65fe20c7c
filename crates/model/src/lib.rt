// The types of the language, and what every entry point answers. What they mean is said in specs/: every definition of
// document 01. What is shown of the definitions alone, demand 3 among it, stands in proofs/. There is no entry point here.

#![tactic(auto)]

ghost use Rattle.std.specs.Prelude.{◌≡◌};
ghost use Rattle.model.specs.Answers.{number_of};

// The bounds, as specs/Limits has them: the numbers of a stored line and of a trace row, the bytes of a state, the most
// lines of a program and of an accepted one, the most lines that one line expands to.
pub const LINE_WIDTH: usize = 6;

pub const ROW_WIDTH: usize = 9;

pub const STATE_SIZE: usize = 544;

pub const MAX_LINES: usize = 32768;

pub const MAX_ACCEPTED: usize = 1024;

pub const LONGEST: usize = 18;

// Whether a line handles key bits: u is Unmarked, s is Marked.
#[derive(Clone, Copy, PartialEq, Eq)]
pub enum Mark {
    Unmarked,
    Marked,
}

#[derive(Clone, Copy, PartialEq, Eq)]
pub enum Opcode {
    Nop,
    Jmp,
    Not,
    Mov,
    And,
    Orr,
    Xor,
    Lsl,
    Lsr,
    Add,
    Mul,
    Beq,
    Bne,
}

// One field of a line: empty, `#n`, `rN`, `@n`, and the indirect forms `!rN+k`, `%rN+k` and `^rN+k`.
#[derive(Clone, Copy, PartialEq, Eq)]
pub enum Operand {
    Empty,
    Literal(u8),
    Register(u8),
    Cell(u16),
    PublicCell { base: u8, offset: u8 },
    SensitiveCell { base: u8, offset: u8 },
    TableCell { base: u8, offset: u8 },
}

// What a place may hold: r4 to r15 and cells 0 to 127 are public, r16 to r31 and cells 128 to 255 sensitive, all others neither.
#[derive(Clone, Copy, PartialEq, Eq)]
pub enum Kind {
    Neither,
    Public,
    Sensitive,
}

// The last field of a line: empty, or a line of the program. It has the word of the other fields, `Empty`, so an `Option` would read no plainer.
#[derive(Clone, Copy, PartialEq, Eq)]
pub enum Target {
    Empty,
    Line(u16),
}

// How the code's two bits lie: the codes of 1 and of 0, both bits together, whether a bit lies between the two, and where the tables of
// orr and xor begin, counted from cell 256, where that of and begins. `layout_of` of specs/Layouts makes it of a position and a spacing.
#[derive(Clone, Copy)]
pub struct Layout {
    pub one: u8,
    pub zero: u8,
    pub mask: u8,
    pub spaced: bool,
    pub orr: u8,
    pub xor: u8,
}

#[derive(Clone, Copy)]
pub struct Line {
    pub mark: Mark,
    pub opcode: Opcode,
    pub destination: Operand,
    pub first: Operand,
    pub second: Operand,
    pub target: Target,
}

// Why a call is turned down: the conditions, each under its number; 13 no longer occurs.
#[derive(Clone, Copy, PartialEq, Eq)]
pub enum Condition {
    NoNewline = 1,
    NotFiveCommas = 2,
    UnknownMark = 3,
    UnknownOpcode = 4,
    WrongFields = 5,
    WrongOperand = 6,
    TooManyLines = 7,
    StoreFull = 8,
    TooLong = 9,
    ReservedPlace = 10,
    WrongDestination = 11,
    SensitiveArgument = 12,
    NoMacro = 14,
    NoBit = 15,
    TargetAbove = 16,
    NoRoom = 17,
    WrongLength = 18,
    WrongImage = 19,
    TraceTooShort = 20,
    SeveralValues = 21,
    TooManyValues = 22,
    UnknownLayout = 23,
    WrongLabel = 24,
    NoCounterpart = 25,
    WrongWatch = 26,
    WrongMap = 27,
    WrongChoice = 28,
    TooFewWords = 29,
}

impl From<Condition> for u8 {
    ghost from_gives = { λ c n. n ≡ number_of c };

    fn from(condition: Condition) -> u8 {
        condition as u8
    }
}

// What a call answers that is turned down: the condition that holds, and the line. Lines of a program are told by 16 bits, lines of a
// published text by a `usize`.
#[derive(Clone, Copy)]
pub struct Refusal<L = u16> {
    pub condition: Condition,
    pub line: L,
}

// A line of a program, told as one of a text.
impl From<Refusal> for Refusal<usize> {
    ghost from_gives = { λ r w. w ≡ r };

    fn from(refusal: Refusal) -> Refusal<usize> {
        Refusal {
            condition: refusal.condition,
            line: refusal.line as usize,
        }
    }
}

// How a run ends: at the end of its program, or with its budget used up.
#[derive(Clone, Copy)]
pub enum Ending {
    Halted { counter: u16, steps: u16 },
    Spent { counter: u16, steps: u16 },
}
