// Loads each text of standard input, 131,072 bytes at most, and writes its refusal as a line: 8f, number, line in 2 bytes.
// The texts are a row of `cases`.
#![tactic(auto)]

use std::io::{self, Write};

const MOST: usize = 131072;

// Loads one text and writes what came back.
fn report<W: Write>(text: &[u8], store: &mut [u8], printed: &mut W) -> io::Result<()> {
    let (number, line) = match load::load(text, store) {
        Ok(()) => (0, 0),
        Err(refused) => (refused.refusal.number(), refused.line),
    };
    let [high, low] = ((line % 65536) as u16).to_be_bytes();
    let mut room = [0u8; 9];
    lines::encode(&[0x8f, number, high, low], &mut room);
    printed.write_all(&room)
}

#[tactic(auto, using(cases::proofs::Inside::case_inside))]
fn report_all<W: Write>(input: &[u8], store: &mut [u8], printed: &mut W) -> io::Result<()> {
    let mut at = 0;
    while let Some((from, end)) = cases::next(input, at) {
        report(&input[from..end], store, printed)?;
        at = end;
    }
    Ok(())
}

fn main(rt: HostRuntime) -> io::Result<()> {
    let mut input = [0u8; MOST];
    let mut store = [0u8; 16384];
    let n = input::fill(&mut rt.stdin(), &mut input)?;
    report_all(&input[..n], &mut store, &mut rt.stdout())
}
