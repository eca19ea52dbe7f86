// Checks each input of standard input, a row of `cases` of 131,072 bytes at most, and writes what pathcheck prints for each, one after the other.
#![tactic(auto)]

use std::io::{self, Write};

// Checks one input and writes what is printed.
fn answer<W: Write>(input: &[u8], output: &mut [u8], printed: &mut W) -> io::Result<()> {
    let size = question::check(input, output);
    printed.write_all(&output[..size])
}

#[tactic(auto, using(cases::proofs::Inside::case_inside))]
fn answer_all<W: Write>(input: &[u8], output: &mut [u8], printed: &mut W) -> io::Result<()> {
    let mut at = 0;
    while let Some((from, end)) = cases::next(input, at) {
        answer(&input[from..end], output, printed)?;
        at = end;
    }
    Ok(())
}

fn main(rt: HostRuntime) -> io::Result<()> {
    let mut input = [0u8; 131072];
    let mut output = [0u8; 49152]; // 01's room
    let n = input::fill(&mut rt.stdin(), &mut input)?;
    answer_all(&input[..n], &mut output, &mut rt.stdout())
}
