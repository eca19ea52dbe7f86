// Document 01's listing and its variants: reads the policy from standard input and writes what is printed for five asks,
// the last two with rooms of 40 and 41 bytes.
#![tactic(auto)]

ghost use Rattle.std.specs.Prelude.{◌≤◌};

use gran::Asked;
use std::io::{self, Write};

// Asks for the account's access to /etc/ntp/ and writes what is printed.
fn show<W: Write>(
    text: &[u8],
    room: &mut [u8],
    uid: u32,
    kind: u8,
    printed: &mut W,
) -> io::Result<()> {
    let mut store = [0u8; 16384];
    let mut work = [0u16; 24576];
    let asked = Asked {
        uid,
        gid: 100,
        start: b"/",
        target: b"/etc/ntp/",
        kind,
    };
    let answer = leveecrumb::ask(text, &mut store, &mut work, room, asked);
    let size = question::tell(answer, room);
    if size <= room.len() {
        printed.write_all(&room[..size])?;
    }
    Ok(())
}

// The same with a room of this length.
fn show_in<W: Write>(
    length: usize,
    text: &[u8],
    uid: u32,
    kind: u8,
    printed: &mut W,
) -> io::Result<()>
    requires { length ≤ 128 }
{
    let mut room = [0u8; 128];
    show(text, &mut room[..length], uid, kind, printed)
}

fn main(rt: HostRuntime) -> io::Result<()> {
    let mut text = [0u8; 1024];
    let n = input::fill(&mut rt.stdin(), &mut text)?;
    let printed = &mut rt.stdout();
    show_in(128, &text[..n], 1000, 1, printed)?;
    show_in(128, &text[..n], 1000, 0, printed)?;
    show_in(128, &text[..n], 1001, 1, printed)?;
    show_in(40, &text[..n], 1000, 1, printed)?;
    show_in(41, &text[..n], 1000, 1, printed)
}
