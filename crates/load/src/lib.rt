// Loads a policy's text, line by line, into a lent store, or gives a refusal with its line.
// Rests on `lines`, `rows`, `store`, `writing`, `policy`, `judge` and `ending`. What a reader must believe stands in `policy`'s
// specs/Load.antt: `LoadedAs`, and in its specs/Refused.antt: the number and the line of what comes back. The promises of the steps
// between stand in specs/Step.antt.
#![tactic(auto)]

ghost use Rattle.std.specs.Prelude.{◌≤◌, ◌<◌, length, ◌≡◌};
ghost use Rattle.lines.specs.Line.{Digits};
ghost use Rattle.policy.specs.Frames.{frame_in};
ghost use Rattle.policy.specs.Load.{LoadedAs};
ghost use Rattle.policy.specs.Refused.{refused_number, refused_line};
ghost use Rattle.load.specs.Step.{Ready, FrameAdded, CanRead, LineRead, Cleared, LinesRead, Filled};

use judge::loading::Loading;
use policy::frame::{self, FrameType};
use policy::refusal::{Refusal, Refused};
use store::Tally;

// Adds what a frame that is not refused says to the tallies and the store.
fn add(store: &mut [u8], t: Tally, size: usize, bytes: &[u8]) -> Tally
    requires ready { Ready t (frame_in size bytes.now) }
    requires in_bounds { 16384 ≤ length store.old }
    ensures { FrameAdded (frame_in size bytes.now) t store.old result store.new }
{
    let Ok(kind) = FrameType::try_from(frame::byte(bytes, 0)) else {
        return t;
    };
    match kind {
        FrameType::Version | FrameType::End => t,
        FrameType::Role => {
            writing::add_role(store, t, frame::byte(bytes, 1), frame::number4(bytes, 2))
        }
        FrameType::Path => writing::add_path(store, t, &bytes[1..size]),
        FrameType::Move => {
            writing::add_move(store, t, frame::byte(bytes, 1), frame::byte(bytes, 2))
        }
        FrameType::Entry => {
            let role = frame::byte(bytes, 1);
            let subject = frame::byte(bytes, 2);
            let caps = frame::byte(bytes, 3);
            let users = frame::byte(bytes, 4);
            let groups = frame::byte(bytes, 5);
            writing::add_entry(store, t, subject, role, caps, users, groups)
        }
        FrameType::Object => {
            writing::add_object(store, t, frame::byte(bytes, 1), frame::byte(bytes, 2))
        }
        FrameType::Uid => writing::add_uid(store, t, frame::number4(bytes, 1)),
        FrameType::Gid => writing::add_gid(store, t, frame::number4(bytes, 1)),
    }
}

// What a line gave: its length, and the tallies and the type after it.
#[derive(Clone, Copy)]
struct Step {
    size: usize,
    last: u8,
    tally: Tally,
}

// Reads the first line of a text that is not empty, after so many lines of which the last had the type `last`.
fn read_line(
    text: &[u8],
    values: &[u16; 256],
    store: &mut [u8],
    marks: &mut [u8],
    tally: Tally,
    last: u8,
    before: usize,
) -> Result<Step, Refusal>
    requires can_read { CanRead tally last before text.now store.old marks.old }
    requires digits { Digits values.now × (16384 ≤ length store.old) × (length marks.old ≡ 1024) }
    ensures { LineRead tally last before text.now store.old marks.old result store.new marks.new }
{
    let mut bytes = [0u8; 80];
    let count = lines::decode_first(text, values, &mut bytes);
    if count == 0 {
        return Err(Refusal::BadLine);
    }
    let loading = Loading {
        bytes: store,
        tally,
    };
    judge::refusal(loading, marks, last, before, count, &bytes)?;
    let tally = add(store, tally, count, &bytes);
    judge::noted::note(marks, count, &bytes);
    Ok(Step {
        size: 2 * count + 1, // two digits a byte, and LF
        last: frame::byte(&bytes, 0),
        tally,
    })
}

// Reads all lines of a text into a store whose first 16,384 bytes are 0.
fn read_lines(text: &[u8], store: &mut [u8]) -> Result<Tally, Refused>
    requires cleared { Cleared store.old }
    requires text_len_bound { (length text.now ≤ 32768) × (16384 ≤ length store.old) }
    ensures { LinesRead text.now store.old result store.new }
{
    let values = lines::digits();
    let mut marks = [0u8; 1024];
    let mut tally = Tally::empty();
    let mut last = 0u8; // no type: `judge::refusal` takes any byte as the last one
    let mut line = 0;
    let mut rest = text;
    // No `for`: a line that is read says where the next one begins.
    while !rest.is_empty() {
        let read = read_line(rest, &values, store, &mut marks, tally, last, line);
        line += 1;
        let step = read.map_err(|refusal| Refused { refusal, line })?;
        tally = step.tally;
        last = step.last;
        rest = &rest[step.size..];
    }
    if last != FrameType::End.code() {
        return Err(Refusal::NoEnd.into());
    }
    Ok(tally)
}

// The policy's layout into a store whose first 16,384 bytes are 0; a refusal may leave there what was read before it.
fn fill(text: &[u8], store: &mut [u8]) -> Result<(), Refused>
    requires cleared { Cleared store.old }
    requires text_len_bound { (length text.now ≤ 32768) × (16384 ≤ length store.old) }
    ensures { Filled text.now store.old result store.new }
{
    let tally = read_lines(text, store)?;
    ending::settle(store, tally)?;
    Ok(())
}

// Loads a policy's text into the store's first 16,384 bytes, or leaves them 0; 1 and 2 change nothing.
pub fn load(text: &[u8], store: &mut [u8]) -> Result<(), Refused>
    ensures { LoadedAs text.now store.old (refused_number result) (refused_line result) store.new }
{
    if 32768 < text.len() {
        return Err(Refusal::LongText.into());
    }
    if store.len() < 16384 {
        return Err(Refusal::ShortStore.into());
    }
    rows::clear(&mut store[..16384]);
    let loaded = fill(text, store);
    if loaded.is_err() {
        rows::clear(&mut store[..16384]); // 7 to 16
    }
    loaded
}
