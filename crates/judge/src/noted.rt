// Marks of the paths so far, by a digest of their bytes: a path whose digest has no mark is new, and is compared with none.
// They stay a slice: `refusal` and `note` take any 1,024 bytes, and an array would be a narrower type.
ghost use Rattle.std.specs.Prelude.{◌≡◌, ◌≤◌, ◌<◌, length};
ghost use Rattle.paths.specs.Path.{same};
ghost use Rattle.gran.specs.Lists.{any};
ghost use Rattle.gran.specs.Policy.{Policy};
ghost use Rattle.policy.specs.Frames.{frame_in};
ghost use Rattle.policy.specs.Load.{add};
ghost use Rattle.judge.specs.Judge.{Answers};
ghost use Rattle.judge.specs.Noted.{digest_of, Noted};

use crate::loading::Loading;
use policy::frame::{self, FrameType};

// A path's digest. Its bytes count by their places, so that names with the same letters differ.
fn digest(path: &[u8]) -> usize
    requires { length path.now ≤ 80 }
    ensures { (result ≡ digest_of path.now) × (result < 1024) }
{
    let mut sum: usize = 0;
    for (i, byte) in path.iter().enumerate() {
        sum += (i + 1) * usize::from(*byte);
    }
    sum % 1024
}

// This path.
pub fn has_path(loading: Loading, marks: &[u8], path: &[u8]) -> bool
    requires { (length path.now ≤ 80) × (length marks.now ≡ 1024) }
    ensures { Answers loading.entry.tally loading.entry.bytes.now (λ (P : Policy). Noted P marks.now → result ≡ any (same path.now) P.paths) }
{
    marks[digest(path)] != 0 && loading.has_path(path)
}

// Marks the digest of the path that a frame adds to the policy, where it adds one.
pub fn note(marks: &mut [u8], size: usize, bytes: &[u8])
    requires { (1 ≤ size) × (size ≤ length bytes.now) × (length bytes.now ≤ 80) × (length marks.old ≡ 1024) }
    ensures { (P : Policy) → Noted P marks.old → Noted (add P (frame_in size bytes.now)) marks.new }
{
    if frame::byte(bytes, 0) == FrameType::Path.code() {
        let at = digest(&bytes[1..size]);
        marks[at] = 1;
    }
}
