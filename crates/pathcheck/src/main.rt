// Document 01's program: reads the three question lines and the policy from standard input and prints the answer.
// Rests on `question`; `checked_enough`, there, says that an input is answered by its first 33,252 bytes.
#![tactic(auto)]

use std::io::{self, Write};

fn main(rt: HostRuntime) -> io::Result<()> {
    // Three question lines of 161 bytes, the longest good ones, and one byte more than the longest text; and 01's room.
    let mut input = [0u8; 33252];
    let mut output = [0u8; 49152];
    let n = input::fill(&mut rt.stdin(), &mut input)?;
    let size = question::check(&input[..n], &mut output);
    rt.stdout().write_all(&output[..size])
}
