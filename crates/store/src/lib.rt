// The store: how a policy lies in 16,384 lent bytes, and the tallies that a loader keeps while it fills them.
// Rests on `paths`, `lines`, `rows` and `gran`. What a reader must believe stands in specs/: `layout` (Layout.antt), `Holds` and
// the tallies (Held.antt), a policy with one thing more (Grow.antt), and the kinds of roles by their bytes (Kind.antt). The laws in proofs/
// serve those who write and read.
#![tactic(auto)]

ghost use Rattle.std.specs.Prelude.{◌≡◌};
ghost use Rattle.store.specs.Kind.{kind_code, KindOf};
ghost use Rattle.store.specs.Layout.{four};
ghost use Rattle.store.specs.Held.{Bounded, no_tally, role_tally, path_tally, move_tally, entry_tally, object_tally, uid_tally, gid_tally};

// The kinds of roles, by the bytes of their frames.
#[derive(Clone, Copy, PartialEq, Eq)]
pub enum RoleKind {
    User = 0x75,
    Group = 0x67,
    Special = 0x73,
    Default = 0x2d,
}

impl RoleKind {
    // The kind with this code, if one has it.
    pub fn of(code: u8) -> Option<RoleKind>
        ensures { KindOf code result }
    {
        match code {
            0x75 => Some(RoleKind::User),
            0x67 => Some(RoleKind::Group),
            0x73 => Some(RoleKind::Special),
            0x2d => Some(RoleKind::Default),
            _ => None,
        }
    }

    // The byte that stands for the kind.
    pub fn code(self) -> u8
        ensures { result ≡ kind_code self }
    {
        self as u8
    }
}

// What the last entry has so far: objects, listed UIDs and GIDs, user and group mode.
#[derive(Clone, Copy)]
pub struct Last {
    pub objects: usize,
    pub uids: usize,
    pub gids: usize,
    pub users: u8,
    pub groups: u8,
}

impl Last {
    // No entry yet.
    const EMPTY: Last = Last {
        objects: 0,
        uids: 0,
        gids: 0,
        users: 1,
        groups: 1,
    };
}

// What was loaded so far: how many of each kind, the bytes of all paths, and the last entry.
// No ghost field says `Bounded`: `writing::add_entry` asks nothing of the counts of the entry before, as a tally that is bounded would.
#[derive(Clone, Copy)]
pub struct Tally {
    pub users: usize,
    pub groups: usize,
    pub specials: usize,
    pub defaults: usize,
    pub paths: usize,
    pub bytes: usize,
    pub moves: usize,
    pub entries: usize,
    pub objects: usize,
    pub ids: usize,
    pub last: Last,
}

impl Tally {
    // Nothing was loaded yet.
    pub fn empty() -> Self
        ensures { result ≡ no_tally }
    {
        Tally {
            users: 0,
            groups: 0,
            specials: 0,
            defaults: 0,
            paths: 0,
            bytes: 0,
            moves: 0,
            entries: 0,
            objects: 0,
            ids: 0,
            last: Last::EMPTY,
        }
    }

    // The tallies after one thing more, which stay within their bounds: a role of this kind, any byte, as `writing::add_role` takes it.
    pub fn with_role(mut self, kind: u8) -> Self
        requires { Bounded (role_tally self kind) }
        ensures { result ≡ role_tally self kind }
    {
        match RoleKind::of(kind).unwrap_or(RoleKind::Default) {
            RoleKind::User => self.users += 1,
            RoleKind::Group => self.groups += 1,
            RoleKind::Special => self.specials += 1,
            RoleKind::Default => self.defaults += 1,
        }
        self
    }

    // A path of this many bytes.
    pub fn with_path(mut self, size: usize) -> Self
        requires { Bounded (path_tally self size) }
        ensures { result ≡ path_tally self size }
    {
        self.paths += 1;
        self.bytes += size;
        self
    }

    // A move.
    pub fn with_move(mut self) -> Self
        requires { Bounded (move_tally self) }
        ensures { result ≡ move_tally self }
    {
        self.moves += 1;
        self
    }

    // An entry with these modes, and no object and no id yet.
    pub fn with_entry(mut self, users: u8, groups: u8) -> Self
        requires { Bounded (entry_tally self users groups) }
        ensures { result ≡ entry_tally self users groups }
    {
        self.entries += 1;
        self.last = Last {
            users,
            groups,
            ..Last::EMPTY
        };
        self
    }

    // An object of the last entry.
    pub fn with_object(mut self) -> Self
        requires { Bounded (object_tally self) }
        ensures { result ≡ object_tally self }
    {
        self.objects += 1;
        self.last.objects += 1;
        self
    }

    // A listed UID of the last entry. (One for both kinds of ids would ask which, and be longer than the two.)
    pub fn with_uid(mut self) -> Self
        requires { Bounded (uid_tally self) }
        ensures { result ≡ uid_tally self }
    {
        self.ids += 1;
        self.last.uids += 1;
        self
    }

    // A listed GID of the last entry.
    pub fn with_gid(mut self) -> Self
        requires { Bounded (gid_tally self) }
        ensures { result ≡ gid_tally self }
    {
        self.ids += 1;
        self.last.gids += 1;
        self
    }
}

// An id in four bytes, as rows hold it.
#[tactic(auto, unfolding(crate::specs::Layout::four))]
pub fn id_bytes(id: u32) -> [u8; 4]
    ensures { result ≡ four id }
{
    id.to_be_bytes()
}
