// The fifth program, request 08: reads a program in our line form from standard input, and prints its published text, or the refusal. What it prints is
// the contract of filters::print_sent; here it is only read and written.

#![tactic(auto)]

use lines::shared::{convert, filled};
use std::io;

// Room for one byte more than the program reads, so that a longer input is told.
const INPUT_ROOM: usize = filters::INPUT_SIZE + 1;

// Room for every text that is printed.
const OUTPUT_ROOM: usize = filters::SENT_BYTES;

fn main(rt: HostRuntime) -> io::Result<()> {
    convert(
        rt.stdin(),
        rt.stdout(),
        filters::INPUT_SIZE,
        &mut filled::<u8, INPUT_ROOM>(0),
        &mut filled::<u8, OUTPUT_ROOM>(0),
        filters::print_sent,
    )
}
