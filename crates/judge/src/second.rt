// Whether the policy so far has a role, path, move, entry, object or listed id already: refusal 11.
ghost use Rattle.std.specs.Prelude.{◌≡◌, List, [], ℕ, ◌*◌, ◌+◌, ◌-◌, ◌≤◌, ◌<◌, length, get_or, drop};
ghost use Rattle.paths.specs.Path.{same};
ghost use Rattle.rows.specs.Rows.{rows_of, has_row};
ghost use Rattle.gran.specs.Lists.{any, member};
ghost use Rattle.gran.specs.Policy.{Policy};
ghost use Rattle.gran.specs.Match.{is_entry, objects_of};
ghost use Rattle.gran.specs.Role.{is_move};
ghost use Rattle.store.specs.declared.Tally.{Tally};
ghost use Rattle.store.specs.Layout.{four};
ghost use Rattle.store.specs.Held.{Bounded, Holds, last_entry};
ghost use Rattle.policy.specs.Frames.{has_role};
ghost use Rattle.judge.specs.Judge.{Answers, role};

use crate::loading::Loading;
use store::{RoleKind, id_bytes};

// Whether path `number` of the table is this one. It needs no tallies.
pub fn is_path(store: &[u8], number: usize, path: &[u8]) -> bool
    requires { (number < 96) × (16384 ≤ length store.now) }
    ensures { (P : Policy) (rest : List ℕ) (t : Tally) → Bounded t → Holds P rest t store.now → number < length P.paths → result ≡ same path.now (get_or P.paths number []) }
{
    let row = 676 + number * 3;
    let size = usize::from(store[row + 2]);
    if path.len() != size {
        return false;
    }
    let at = 2948 + usize::from(u16::from_be_bytes([store[row], store[row + 1]]));
    let end = at + size;
    if store.len() < end {
        return false;
    }
    rows::is_same(&store[at..end], path)
}

impl Loading<'_> {
    // A user with this UID, a group with this GID, or a default; special roles are never the same.
    #[tactic(auto, unfolding(policy::specs::Frames::has_role))]
    pub fn has_role(self, kind: u8, id: u32) -> bool
        ensures { Answers self.entry.tally self.entry.bytes.now (λ (P : Policy). result ≡ has_role P.roles (role kind id)) }
    {
        if kind == RoleKind::Special.code() {
            return false;
        }
        let number = id_bytes(id);
        let key = [kind, number[0], number[1], number[2], number[3]];
        let count = self.roles();
        rows::has_row(&self.bytes[16..676], 22, count, &key)
    }

    // This move.
    pub fn has_move(self, from: u8, special: u8) -> bool
        ensures { Answers self.entry.tally self.entry.bytes.now (λ (P : Policy). result ≡ any (is_move from special) P.moves) }
    {
        let at = 2948 + self.tally.bytes;
        rows::has_row(
            &self.bytes[at..16384],
            2,
            self.tally.moves,
            &[from, special],
        )
    }

    // An entry of this role and subject path.
    pub fn has_entry(self, of: u8, subject: u8) -> bool
        ensures { Answers self.entry.tally self.entry.bytes.now (λ (P : Policy). result ≡ any (is_entry of subject) P.entries) }
    {
        rows::has_row(
            &self.bytes[1156..1924],
            12,
            self.tally.entries,
            &[subject, of],
        )
    }

    // An object of this path in the last entry.
    pub fn has_object(self, path: u8) -> bool
        ensures { Answers self.entry.tally self.entry.bytes.now (λ (P : Policy). result ≡ member path (objects_of (last_entry P.entries))) }
    {
        let count = self.tally.last.objects;
        let at = 1924 + 2 * (self.tally.objects - count);
        rows::has_row(&self.bytes[at..2948], 2, count, &[path])
    }

    // An id among `count` of the pool, behind which there are `after` more.
    fn has_id(self, count: usize, after: usize, id: u32) -> bool
        requires { after + count ≤ self.tally.ids }
        ensures { let t = self.entry.tally in result ≡ has_row (four id) (rows_of 4 count (drop (2948 + t.bytes + 2 * t.moves + 4 * (t.ids - after - count)) self.entry.bytes.now)) }
    {
        let before = self.tally.ids - after - count;
        let at = 2948 + self.tally.bytes + 2 * self.tally.moves + 4 * before;
        rows::has_row(&self.bytes[at..], 4, count, &id_bytes(id))
    }

    // A listed UID of the last entry. (What it shares with `has_gid` is `has_id`; the GIDs stand behind the UIDs.)
    pub fn has_uid(self, id: u32) -> bool
        ensures { Answers self.entry.tally self.entry.bytes.now (λ (P : Policy). result ≡ member id (last_entry P.entries).users.ids) }
    {
        self.has_id(self.tally.last.uids, self.tally.last.gids, id)
    }

    // A listed GID of the last entry.
    pub fn has_gid(self, id: u32) -> bool
        ensures { Answers self.entry.tally self.entry.bytes.now (λ (P : Policy). result ≡ member id (last_entry P.entries).groups.ids) }
    {
        self.has_id(self.tally.last.gids, 0, id)
    }

    // This path.
    pub fn has_path(self, path: &[u8]) -> bool
        ensures { Answers self.entry.tally self.entry.bytes.now (λ (P : Policy). result ≡ any (same path.now) P.paths) }
    {
        for i in 0..self.tally.paths {
            if is_path(self.bytes, i, path) {
                return true;
            }
        }
        false
    }
}
