// The first of the two programs of document 01: reads program text from standard input, and prints its expansion or the refusal. What
// it prints is the contract of programs::print_expansion; here it is only read and written.

#![tactic(auto)]

use lines::shared::{convert, filled};
use std::io;

// Room for one byte more than the programs read, so that a longer input is told.
const INPUT_ROOM: usize = programs::INPUT_SIZE + 1;

// Room for the text of every expansion.
const OUTPUT_ROOM: usize = programs::EXPANSION_BYTES;

fn main(rt: HostRuntime) -> io::Result<()> {
    convert(
        rt.stdin(),
        rt.stdout(),
        programs::INPUT_SIZE,
        &mut filled::<u8, INPUT_ROOM>(0),
        &mut filled::<u8, OUTPUT_ROOM>(0),
        programs::print_expansion,
    )
}
