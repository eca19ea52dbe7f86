// Whether the fields of a frame are in range, with the policy so far: refusal 10.
ghost use Rattle.std.specs.Prelude.{◌≡◌, ℕ, ◌≤◌, length};
ghost use Rattle.gran.specs.Policy.{Policy, Allowed};
ghost use Rattle.policy.specs.Frames.{frame_in, move_from, entry_from, object_from, id_from, good_move, good_entry, good_object, good_id, in_range};
ghost use Rattle.judge.specs.Judge.{Answers};

use crate::loading::Loading;
use policy::frame::{self, FrameType};
use store::RoleKind;

// 42 and 43: the id is in range, and its list is not under mode 0.
#[tactic(auto, unfolding(policy::specs::Frames::good_id))]
fn is_good_id(mode: u8, bytes: &[u8]) -> bool
    ensures { (a : Allowed) → mode ≡ a.mode → (size : ℕ) → result ≡ good_id a (id_from (frame_in size bytes.now)) }
{
    frame::number4(bytes, 1) != gran::NO_ID && mode != 0
}

impl Loading<'_> {
    // 30: both numbers name roles, the second a special one.
    #[tactic(auto, unfolding(policy::specs::Frames::good_move))]
    fn is_good_move(self, bytes: &[u8]) -> bool
        ensures { Answers self.entry.tally self.entry.bytes.now (λ (P : Policy). result ≡ good_move P.roles (move_from (frame_in (length bytes.now) bytes.now))) }
    {
        let roles = self.roles();
        let from = usize::from(frame::byte(bytes, 1));
        let special = usize::from(frame::byte(bytes, 2));
        from < roles && special < roles && self.bytes[16 + special * 22] == RoleKind::Special.code()
    }

    // 40: the numbers name a role and a path, and capabilities and modes are in range.
    #[tactic(auto, unfolding(policy::specs::Frames::good_entry))]
    fn is_good_entry(self, bytes: &[u8]) -> bool
        ensures { Answers self.entry.tally self.entry.bytes.now (λ (P : Policy). result ≡ good_entry P (entry_from (frame_in (length bytes.now) bytes.now))) }
    {
        usize::from(frame::byte(bytes, 1)) < self.roles()
            && usize::from(frame::byte(bytes, 2)) < self.tally.paths
            && frame::byte(bytes, 3) < 4
            && frame::byte(bytes, 4) <= 2
            && frame::byte(bytes, 5) <= 2
    }

    // 41: the number names a path, and the modes are in range.
    #[tactic(auto, unfolding(policy::specs::Frames::good_object))]
    fn is_good_object(self, bytes: &[u8]) -> bool
        ensures { Answers self.entry.tally self.entry.bytes.now (λ (P : Policy). result ≡ good_object P (object_from (frame_in (length bytes.now) bytes.now))) }
    {
        let modes = gran::Modes {
            bits: frame::byte(bytes, 2),
        };
        usize::from(frame::byte(bytes, 1)) < self.tally.paths && modes.in_range()
    }

    // Whether every field of the frame is in range. A frame of no type has none, so no type is asked for.
    #[tactic(auto, unfolding(policy::specs::Frames::in_range, policy::specs::Frames::path_from))]
    pub fn in_range(self, size: usize, bytes: &[u8]) -> bool
        requires { (1 ≤ size) × (size ≤ length bytes.now) }
        ensures { Answers self.entry.tally self.entry.bytes.now (λ (P : Policy). result ≡ in_range P (frame_in size bytes.now)) }
    {
        match FrameType::try_from(frame::byte(bytes, 0)) {
            Ok(FrameType::Version) => frame::byte(bytes, 1) == 1,
            Ok(FrameType::Role) => frame::is_good_role(bytes),
            Ok(FrameType::Path) => paths::good_path(&bytes[1..size], true),
            Ok(FrameType::Move) => self.is_good_move(bytes),
            Ok(FrameType::Entry) => self.is_good_entry(bytes),
            Ok(FrameType::Object) => self.is_good_object(bytes),
            Ok(FrameType::Uid) => is_good_id(self.tally.last.users, bytes),
            Ok(FrameType::Gid) => is_good_id(self.tally.last.groups, bytes),
            Ok(FrameType::End) | Err(_) => true,
        }
    }
}
