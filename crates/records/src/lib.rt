// Step records: what a step of a run says, the bytes of its line, and the lines of an answer written into a room.
// Rests on `lines`, `gran` and `store`.
// What a reader must believe stands in specs/Record.antt: `records_of`; `step_bytes`, `step_lines` and `summary`; `filled` and `written`.
#![tactic(auto)]

ghost use Rattle.std.specs.Prelude.{◌≡◌, ◌+◌, ◌≤◌, length, take};
ghost use Rattle.lines.specs.Line.{line_of};
ghost use Rattle.records.specs.Record.{step_bytes, summary, filled, after, PutAs};

use gran::Process;
use store::id_bytes;

// A step record, laid out as C does (16 bytes), its kind a number for C's sake: unused fields are 0, no role is 255.
#[repr(C)]
#[derive(Clone, Copy, PartialEq, Eq)]
pub struct Step {
    pub kind: u8,
    pub role: u8,
    pub uid: u32,
    pub gid: u32,
    pub object: u8,
    pub file: u8,
}

// The bytes of a line, zero filled, and how many they are: memory is fixed, and `filled` says both.
#[derive(Clone, Copy)]
pub struct Line {
    pub size: usize,
    pub bytes: [u8; 11],
}

impl Line {
    // The bytes of a line, 11 at most.
    #[tactic(auto, using(crate::proofs::Bytes::line_laws), unfolding(crate::specs::Record::filled, lines::specs::Line::zeros))]
    fn of(front: &[u8]) -> Self
        requires { length front.now ≤ 11 }
        ensures { result ≡ filled front.now }
    {
        let mut bytes = [0; 11];
        bytes[..front.len()].copy_from_slice(front);
        Line {
            size: front.len(),
            bytes,
        }
    }

    fn as_slice(&self) -> &[u8]
        requires { self.now.size ≤ 11 }
        ensures { result.now ≡ take self.now.size self.now.bytes }
    {
        &self.bytes[..self.size]
    }
}

impl Step {
    pub const SPECIAL: u8 = 0x81;

    pub const USER: u8 = 0x82;

    pub const GROUP: u8 = 0x83;

    pub const EXEC: u8 = 0x84;

    // Every field is 0 but the kind.
    fn of(kind: u8) -> Self
        ensures { result ≡ record { kind = kind; role = 0; uid = 0; gid = 0; object = 0; file = 0 } }
    {
        Step {
            kind,
            role: 0,
            uid: 0,
            gid: 0,
            object: 0,
            file: 0,
        }
    }

    // A special role is taken, 255 for none.
    pub fn special(role: u8) -> Self
        ensures { result ≡ record { kind = 0x81; role = role; uid = 0; gid = 0; object = 0; file = 0 } }
    {
        Step {
            role,
            ..Step::of(Step::SPECIAL)
        }
    }

    pub fn user(uid: u32) -> Self
        ensures { result ≡ record { kind = 0x82; role = 0; uid = uid; gid = 0; object = 0; file = 0 } }
    {
        Step {
            uid,
            ..Step::of(Step::USER)
        }
    }

    pub fn group(gid: u32) -> Self
        ensures { result ≡ record { kind = 0x83; role = 0; uid = 0; gid = gid; object = 0; file = 0 } }
    {
        Step {
            gid,
            ..Step::of(Step::GROUP)
        }
    }

    pub fn exec(object: u8, file: u8, uid: u32, gid: u32) -> Self
        ensures { result ≡ record { kind = 0x84; role = 0; uid = uid; gid = gid; object = object; file = file } }
    {
        Step {
            object,
            file,
            uid,
            gid,
            ..Step::of(Step::EXEC)
        }
    }

    // The bytes of the step's line.
    #[tactic(auto, unfolding(crate::specs::Record::step_bytes))]
    pub fn line(self) -> Line
        ensures { result ≡ filled (step_bytes self) }
    {
        let [a, b, c, d] = id_bytes(self.uid);
        let [e, f, g, h] = id_bytes(self.gid);
        match self.kind {
            Step::SPECIAL => Line::of(&[self.kind, self.role]),
            Step::USER => Line::of(&[self.kind, a, b, c, d]),
            Step::GROUP => Line::of(&[self.kind, e, f, g, h]),
            _ => Line::of(&[self.kind, self.object, self.file, a, b, c, d, e, f, g, h]),
        }
    }

    // The length of the step's line as text.
    #[tactic(auto, using(crate::proofs::Bytes::line_laws))]
    pub fn length(self) -> usize
        ensures { result ≡ length (line_of (step_bytes self)) }
    {
        2 * self.line().size + 1
    }

    // The process that has done the step.
    #[tactic(auto, unfolding(crate::specs::Record::after))]
    pub fn done_by(self, process: Process) -> Process
        ensures { result ≡ after process self }
    {
        match self.kind {
            Step::SPECIAL => process.take_special(self.role),
            Step::USER => process.set_user(self.uid),
            Step::GROUP => process.set_group(self.gid),
            _ => process.execute(self.file, self.uid, self.gid),
        }
    }
}

// Writes the line of `bytes` at a place of a room that it fits: the place behind it.
#[tactic(auto, using(crate::proofs::Putting::put_part))]
fn put(room: &mut [u8], at: usize, bytes: &[u8]) -> usize
    requires { at + length (line_of bytes.now) ≤ length room.old }
    ensures { PutAs (line_of bytes.now) at room.old result room.new }
{
    at + lines::encode(bytes, &mut room[at..])
}

// Writes a step's line at a place of a room that it fits: the place behind it.
#[tactic(auto, using(crate::proofs::Bytes::line_laws))]
pub fn put_step(room: &mut [u8], at: usize, step: Step) -> usize
    requires { at + length (line_of (step_bytes step)) ≤ length room.old }
    ensures { PutAs (line_of (step_bytes step)) at room.old result room.new }
{
    put(room, at, step.line().as_slice())
}

// Writes an answer's first line in front of a room of at least 13 bytes: the place behind it.
#[tactic(auto, using(crate::proofs::Bytes::line_laws), unfolding(crate::specs::Record::summary, store::specs::Layout::two))]
pub fn put_summary(room: &mut [u8], verdict: u8, opened: u16, steps: u16) -> usize
    requires { 13 ≤ length room.old }
    ensures { PutAs (summary verdict opened steps) 0 room.old result room.new }
{
    let [a, b] = opened.to_be_bytes();
    let [c, d] = steps.to_be_bytes();
    put(room, 0, &[0x80, verdict, a, b, c, d])
}
