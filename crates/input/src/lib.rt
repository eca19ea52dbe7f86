// Reading an input into a lent area. Rests on nothing.
#![tactic(auto)]

ghost use Rattle.std.specs.Prelude.{◌≤◌, ◌<◌, length, take, IfOk};
ghost use Rattle.std.specs.Io.KnownBytes.{Consumes, IsAtEnd};

use std::io::{self, Read};

// Reads until the area is full or the input ends, and returns how many bytes stand in front: they are what the input gave, and fewer than
// the area has room for only where it has no more.
pub fn fill<R: Read>(input: &mut R, area: &mut [u8]) -> io::Result<usize>
    ensures within { IfOk result (λ n. n ≤ length area.new) }
    ensures bytes { IfOk result (λ n. Consumes (R.remaining input.old) (R.remaining input.new) (take n area.new)) }
    ensures whole { IfOk result (λ n. n < length area.new → IsAtEnd (R.remaining input.new)) }
{
    // A read says how far it came, so no `for` counts; std's `read_exact` fails where the input is shorter than the area.
    let mut done = 0;
    while done < area.len() {
        let n = input.read(&mut area[done..])?;
        if n == 0 {
            break;
        }
        done += n;
    }
    Ok(done)
}
