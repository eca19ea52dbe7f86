// The fields of a frame, and the tests of refusals 8, 9, 10 and 13 that need no policy.
// A frame's bytes are lent: a copy made right after they were written waits for each of them.
ghost use Rattle.std.specs.Prelude.{◌≡◌, ℕ};
ghost use Rattle.policy.specs.Frames.{frame_in, number2, number4, role_from, frame_table, fits_table, may_follow, good_role, miscounts};
ghost use Rattle.policy.specs.Types.{type_code, Typed};

use crate::refusal::Refusal;
pub use rows::byte;
use store::RoleKind;

// The types of frames, in the order in which they come.
#[derive(Clone, Copy, PartialEq, Eq)]
pub enum FrameType {
    Version = 0x01,
    Role = 0x10,
    Path = 0x20,
    Move = 0x30,
    Entry = 0x40,
    Object = 0x41,
    Uid = 0x42,
    Gid = 0x43,
    End = 0x7f,
}

// A type with its shortest and longest payload. Bytes all: 27 of them for the whole table, which each frame is held to.
#[derive(Clone, Copy)]
struct FrameForm {
    code: u8,
    shortest: u8,
    longest: u8,
}

// Consulted before any field is read. By the byte, as `fits_type` and the definition `frame_table` have it.
const FRAME_TYPES: [FrameForm; 9] = [
    FrameForm {
        code: FrameType::Version as u8,
        shortest: 1,
        longest: 1,
    },
    FrameForm {
        code: FrameType::Role as u8,
        shortest: 5,
        longest: 5,
    },
    FrameForm {
        code: FrameType::Path as u8,
        shortest: 1,
        longest: 79,
    },
    FrameForm {
        code: FrameType::Move as u8,
        shortest: 2,
        longest: 2,
    },
    FrameForm {
        code: FrameType::Entry as u8,
        shortest: 5,
        longest: 5,
    },
    FrameForm {
        code: FrameType::Object as u8,
        shortest: 2,
        longest: 2,
    },
    FrameForm {
        code: FrameType::Uid as u8,
        shortest: 4,
        longest: 4,
    },
    FrameForm {
        code: FrameType::Gid as u8,
        shortest: 4,
        longest: 4,
    },
    FrameForm {
        code: FrameType::End as u8,
        shortest: 2,
        longest: 2,
    },
];

impl TryFrom<u8> for FrameType {
    type Error = Refusal;

    ghost try_from_gives = { Typed };

    fn try_from(code: u8) -> Result<Self, Refusal> {
        match code {
            0x01 => Ok(FrameType::Version),
            0x10 => Ok(FrameType::Role),
            0x20 => Ok(FrameType::Path),
            0x30 => Ok(FrameType::Move),
            0x40 => Ok(FrameType::Entry),
            0x41 => Ok(FrameType::Object),
            0x42 => Ok(FrameType::Uid),
            0x43 => Ok(FrameType::Gid),
            0x7f => Ok(FrameType::End),
            _ => Err(Refusal::BadFrame),
        }
    }
}

impl FrameType {
    // The byte that a frame of the type begins with.
    pub fn code(self) -> u8
        ensures { result ≡ type_code self }
    {
        self as u8
    }

    // Whether a payload may have this size, by the table of types.
    pub fn fits(self, size: usize) -> bool
        ensures { result ≡ fits_table frame_table (type_code self) size }
    {
        fits_type(self.code(), size)
    }
}

// The number in two bytes from a place on.
#[tactic(auto, unfolding(crate::specs::Frames::number2))]
pub fn number2(bytes: &[u8], at: u8) -> usize
    ensures { (size : ℕ) → result ≡ number2 (frame_in size bytes.now) at }
{
    let at = usize::from(at);
    usize::from(u16::from_be_bytes([byte(bytes, at), byte(bytes, at + 1)]))
}

// The number in four bytes from a place on.
#[tactic(auto, unfolding(crate::specs::Frames::number4))]
pub fn number4(bytes: &[u8], at: u8) -> u32
    ensures { (size : ℕ) → result ≡ number4 (frame_in size bytes.now) at }
{
    let at = usize::from(at);
    u32::from_be_bytes([
        byte(bytes, at),
        byte(bytes, at + 1),
        byte(bytes, at + 2),
        byte(bytes, at + 3),
    ])
}

// Whether the table has the type, with a payload of this size.
pub fn fits_type(kind: u8, size: usize) -> bool
    ensures { result ≡ fits_table frame_table kind size }
{
    for form in &FRAME_TYPES {
        if form.code == kind {
            return usize::from(form.shortest) <= size && size <= usize::from(form.longest);
        }
    }
    false // no row has the type
}

// Whether a frame of type `kind` may follow one of type `last`, 0 at the start. Numbers, since `judge::refusal` answers for any byte as the last type.
#[tactic(auto, unfolding(crate::specs::Frames::may_follow))]
pub fn may_follow(last: u8, kind: u8) -> bool
    ensures { result ≡ may_follow last kind }
{
    let version = FrameType::Version.code();
    let entry = FrameType::Entry.code();
    let end = FrameType::End.code();
    if last == 0 {
        kind == version
    } else if kind == version {
        false
    } else if kind == entry || kind == end {
        last != end
    } else {
        // What has a type above an entry's belongs to an entry.
        last <= kind && (kind < entry || entry <= last)
    }
}

// Whether the role's kind and id are in range.
#[tactic(auto, unfolding(crate::specs::Frames::good_role))]
pub fn is_good_role(bytes: &[u8]) -> bool
    ensures { (size : ℕ) → result ≡ good_role (role_from (frame_in size bytes.now)) }
{
    let id = number4(bytes, 2);
    match RoleKind::of(byte(bytes, 1)) {
        Some(RoleKind::User | RoleKind::Group) => id != gran::NO_ID,
        Some(RoleKind::Special | RoleKind::Default) => id == 0,
        None => false,
    }
}

// Whether a 7f counts other than the lines before it.
#[tactic(auto, unfolding(crate::specs::Frames::miscounts))]
pub fn is_miscounted(lines: usize, bytes: &[u8]) -> bool
    ensures { (size : ℕ) → result ≡ miscounts lines (frame_in size bytes.now) }
{
    byte(bytes, 0) == FrameType::End.code() && number2(bytes, 1) != lines
}
