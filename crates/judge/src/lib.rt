// Judges a frame by the policy so far, which lies in the store: refusals 8 to 13.
// Rests on `paths`, `lines`, `rows`, `gran`, `store` and `policy`. What a reader must believe stands in specs/Judge.antt: `Answers`; and in
// specs/Noted.antt: `Noted`.
#![tactic(auto)]

ghost use Rattle.std.specs.Prelude.{◌≡◌, ℕ, ◌≤◌, length};
ghost use Rattle.gran.specs.Policy.{Policy};
ghost use Rattle.policy.specs.Frames.{frame_in, full_of, is_second, is_full};
ghost use Rattle.policy.specs.Load.{frame_refusal};
ghost use Rattle.policy.specs.Refused.{number_in};
ghost use Rattle.judge.specs.Judge.{Answers, load_of};
ghost use Rattle.judge.specs.Noted.{Noted};

use policy::frame::{self, FrameType};
use policy::refusal::Refusal;
use store::RoleKind;

pub mod loading; // loading.rt: the policy so far, which all tests take
pub mod noted; // noted.rt: marks of the paths so far, by which most new paths are known to be new
pub mod range; // range.rt: refusal 10, whether the fields are in range
pub mod second; // second.rt: refusal 11, whether the policy has a thing already

use loading::Loading;

impl Loading<'_> {
    // Whether the frame says again what the policy so far has.
    #[tactic(auto, unfolding(policy::specs::Frames::is_second, policy::specs::Frames::path_from))]
    fn is_second(self, marks: &[u8], size: usize, bytes: &[u8]) -> bool
        requires { (1 ≤ size) × (size ≤ length bytes.now) × (length bytes.now ≤ 80) × (length marks.now ≡ 1024) }
        ensures { Answers self.entry.tally self.entry.bytes.now (λ (P : Policy). Noted P marks.now → result ≡ is_second P (frame_in size bytes.now)) }
    {
        match FrameType::try_from(frame::byte(bytes, 0)) {
            Ok(FrameType::Role) => self.has_role(frame::byte(bytes, 1), frame::number4(bytes, 2)),
            Ok(FrameType::Path) => noted::has_path(self, marks, &bytes[1..size]),
            Ok(FrameType::Move) => self.has_move(frame::byte(bytes, 1), frame::byte(bytes, 2)),
            Ok(FrameType::Entry) => self.has_entry(frame::byte(bytes, 1), frame::byte(bytes, 2)),
            Ok(FrameType::Object) => self.has_object(frame::byte(bytes, 1)),
            Ok(FrameType::Uid) => self.has_uid(frame::number4(bytes, 1)),
            Ok(FrameType::Gid) => self.has_gid(frame::number4(bytes, 1)),
            Ok(FrameType::Version | FrameType::End) | Err(_) => false,
        }
    }

    // Whether the table of roles of a kind is full.
    #[tactic(auto, unfolding(policy::specs::Frames::full_of))]
    fn is_kind_full(self, code: u8) -> bool
        ensures { Answers self.entry.tally self.entry.bytes.now (λ (P : Policy). result ≡ full_of P code) }
    {
        match RoleKind::of(code) {
            Some(RoleKind::User) => 15 <= self.tally.users,
            Some(RoleKind::Group) => 7 <= self.tally.groups,
            Some(RoleKind::Special) => 7 <= self.tally.specials,
            Some(RoleKind::Default) | None => false,
        }
    }

    // Whether the frame's table is full.
    #[tactic(auto, unfolding(policy::specs::Frames::is_full))]
    fn is_full(self, bytes: &[u8]) -> bool
        ensures { Answers self.entry.tally self.entry.bytes.now (λ (P : Policy). result ≡ is_full P (frame_in (length bytes.now) bytes.now)) }
    {
        match FrameType::try_from(frame::byte(bytes, 0)) {
            Ok(FrameType::Role) => self.is_kind_full(frame::byte(bytes, 1)),
            Ok(FrameType::Path) => 96 <= self.tally.paths,
            Ok(FrameType::Entry) => 64 <= self.tally.entries,
            Ok(FrameType::Object) => 512 <= self.tally.objects,
            Ok(FrameType::Uid) => 16 <= self.tally.last.uids,
            Ok(FrameType::Gid) => 16 <= self.tally.last.gids,
            Ok(FrameType::Version | FrameType::Move | FrameType::End) | Err(_) => false,
        }
    }
}

// The lowest refusal of a frame after so many lines, of which the last had the type `last`.
// Each test looks at the type itself: compiled, all do so by the one byte, as they would not by a type that is handed on.
// `size` and `bytes` stay two, as in `frame_in`: a value of both would leave the bounds of 80 and 1,024 to be asked beside it.
#[tactic(auto, unfolding(policy::specs::Load::frame_refusal, policy::specs::Frames::is_full))]
pub fn refusal(
    loading: Loading,
    marks: &[u8],
    last: u8,
    lines: usize,
    size: usize,
    bytes: &[u8],
) -> Result<(), Refusal>
    requires { (1 ≤ size) × (size ≤ length bytes.now) × (length bytes.now ≤ 80) × (length marks.now ≡ 1024) }
    ensures { Answers loading.entry.tally loading.entry.bytes.now (λ (P : Policy). Noted P marks.now → number_in result ≡ frame_refusal (load_of last lines P) (frame_in size bytes.now)) }
{
    let code = frame::byte(bytes, 0);
    if !frame::fits_type(code, size - 1) {
        return Err(Refusal::BadFrame);
    }
    if !frame::may_follow(last, code) {
        return Err(Refusal::OutOfOrder);
    }
    if !loading.in_range(size, bytes) {
        return Err(Refusal::OutOfRange);
    }
    if loading.is_second(marks, size, bytes) {
        return Err(Refusal::Second);
    }
    if loading.is_full(bytes) {
        return Err(Refusal::Full);
    }
    if frame::is_miscounted(lines, bytes) {
        return Err(Refusal::Miscounted);
    }
    Ok(())
}
