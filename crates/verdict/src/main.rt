// The third program: reads machine text from standard input, and prints the verdict on it or the refusal, in one line. What it prints is
// the contract of verdicts::print_verdict; here it is only read and written.

#![tactic(auto)]

use lines::shared::{convert, filled};
use std::io;

// Room for one byte more than the program reads, so that a longer input is told.
const INPUT_ROOM: usize = verdicts::INPUT_SIZE + 1;

// Room for every line that is printed.
const OUTPUT_ROOM: usize = verdicts::LINE_BYTES;

fn main(rt: HostRuntime) -> io::Result<()> {
    convert(
        rt.stdin(),
        rt.stdout(),
        verdicts::INPUT_SIZE,
        &mut filled::<u8, INPUT_ROOM>(0),
        &mut filled::<u8, OUTPUT_ROOM>(0),
        verdicts::print_verdict,
    )
}
