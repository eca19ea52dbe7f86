// The model of 001 as document 01 decides it: a policy, real and abstract steps, access, runs, and the theorems that link them.
// Rests on `paths`. A reader must believe all of specs/, which goes by 01's headings; proofs/ holds the theorems.
// The code here is the model's own: the bits and the small rules, a process with its real steps, which later crates call, and the abstract state with its steps.
#![tactic(auto)]

ghost use Rattle.std.specs.Prelude.{◌≡◌, ◌*◌, ◌<◌, ltb};
ghost use Rattle.gran.specs.Policy.{EXEC, APPEND, SET_UID, SET_GID};
ghost use Rattle.gran.specs.Access.{has, sees, grant};
ghost use Rattle.gran.specs.Role.{chosen, allowed_by};
ghost use Rattle.gran.specs.Exec.{exec_may};
ghost use Rattle.gran.specs.Abstract.{set_special, set_user, set_group, exec, next, begun};
ghost use Rattle.gran.specs.Real.{started, taken, user_set, group_set, executing};

// No role, no path. A number and no `Option`: the definitions of a state (specs/Role.antt: `chosen`) and the steps that C reads have it.
pub const NONE: u8 = 255;

// The id that names nobody.
pub const NO_ID: u32 = 4294967295;

// Whether the bit, a power of two, is set.
#[tactic(auto, unfolding(crate::specs::Access::has))]
fn has_bit(bits: u8, bit: u8) -> bool
    requires { 0 < bit }
    ensures { result ≡ has bits bit }
{
    bits / bit % 2 == 1
}

// The modes of an object.
#[derive(Clone, Copy)]
pub struct Modes {
    pub bits: u8,
}

impl Modes {
    pub const READ: u8 = 1;

    pub const WRITE: u8 = 2;

    pub const EXEC: u8 = 4;

    pub const HIDE: u8 = 8;

    pub const APPEND: u8 = 16;

    // Whether there is no bit but these.
    pub fn in_range(self) -> bool
        ensures { result ≡ ltb self.bits (2 * APPEND) }
    {
        self.bits < 2 * Modes::APPEND
    }

    // Whether the modes have the bit, and not h.
    #[tactic(auto, unfolding(crate::specs::Access::sees))]
    fn sees(self, bit: u8) -> bool
        requires { 0 < bit }
        ensures { result ≡ sees self.bits bit }
    {
        has_bit(self.bits, bit) && !has_bit(self.bits, Modes::HIDE)
    }

    pub fn executable(self) -> bool
        ensures { result ≡ sees self.bits EXEC }
    {
        self.sees(Modes::EXEC)
    }

    // Whether the access of a kind is granted: 0 read, else write, as a question has it (specs/Access.antt: `asked`).
    #[tactic(auto, unfolding(crate::specs::Access::grant, crate::specs::Access::asked))]
    pub fn grants(self, kind: u8) -> bool
        ensures { result ≡ grant kind self.bits }
    {
        self.sees(if kind == 0 { Modes::READ } else { Modes::WRITE })
    }
}

// The capabilities of an entry.
#[derive(Clone, Copy)]
pub struct Caps {
    pub bits: u8,
}

impl Caps {
    pub const SET_UID: u8 = 1;

    pub const SET_GID: u8 = 2;

    pub fn set_uid(self) -> bool
        ensures { result ≡ has self.bits SET_UID }
    {
        has_bit(self.bits, Caps::SET_UID)
    }

    pub fn set_gid(self) -> bool
        ensures { result ≡ has self.bits SET_GID }
    {
        has_bit(self.bits, Caps::SET_GID)
    }
}

// The role in force, of the three roles of a state and the default: special, user, group, default.
#[tactic(auto, unfolding(crate::specs::Role::chosen))]
pub fn role_in_force(special: u8, user: u8, group: u8, fallback: u8) -> u8
    ensures { result ≡ chosen special user group fallback }
{
    if special != NONE {
        special
    } else if user != NONE {
        user
    } else if group != NONE {
        group
    } else {
        fallback
    }
}

// Whether a mode allows an id, which is listed or not: 0 all, 1 only those listed, 2 all but those listed. A number, for which the definition
// `allowed_by` says each case.
#[tactic(auto, unfolding(crate::specs::Role::allowed_by))]
pub fn allowed_by(mode: u8, listed: bool, id: u32) -> bool
    ensures { result ≡ allowed_by mode listed id }
{
    let by_mode = match mode {
        0 => true,
        1 => listed,
        _ => !listed,
    };
    id != NO_ID && by_mode
}

// The exec rule: an id stays, or becomes any allowed one.
#[tactic(auto, unfolding(crate::specs::Exec::exec_may))]
pub fn exec_may(kept: bool, allowed: bool) -> bool
    ensures { result ≡ exec_may kept allowed }
{
    kept || allowed
}

// An abstract state: special, user and group role, or none, and a path of S.
#[derive(Clone, Copy)]
pub struct State {
    pub special: u8,
    pub user: u8,
    pub group: u8,
    pub subject: u8,
}

impl State {
    // A start has no special role.
    pub fn start(user: u8, group: u8, subject: u8) -> Self
        ensures { result ≡ begun user group subject }
    {
        State {
            special: NONE,
            user,
            group,
            subject,
        }
    }

    pub fn take_special(self, role: u8) -> Self
        ensures { result ≡ next self (set_special role) }
    {
        State {
            special: role,
            ..self
        }
    }

    pub fn set_user(self, role: u8) -> Self
        ensures { result ≡ next self (set_user role) }
    {
        State { user: role, ..self }
    }

    pub fn set_group(self, role: u8) -> Self
        ensures { result ≡ next self (set_group role) }
    {
        State {
            group: role,
            ..self
        }
    }

    // The object decides whether the step may be done, and not what comes of it.
    pub fn execute(self, object: u8, user: u8, group: u8, subject: u8) -> Self
        ensures { result ≡ next self (exec object user group subject) }
    {
        State {
            user,
            group,
            subject,
            ..self
        }
    }
}

// A real state as code holds it: special role or none, UID, GID, and the file by its path number, none for the start's own path.
#[derive(Clone, Copy)]
pub struct Process {
    pub special: u8,
    pub uid: u32,
    pub gid: u32,
    pub file: u8,
}

impl Process {
    // A start has no special role, and has executed nothing yet.
    pub fn start(uid: u32, gid: u32) -> Self
        ensures { result ≡ started uid gid }
    {
        Process {
            special: NONE,
            uid,
            gid,
            file: NONE,
        }
    }

    pub fn take_special(self, role: u8) -> Self
        ensures { result ≡ taken self role }
    {
        Process {
            special: role,
            ..self
        }
    }

    pub fn set_user(self, uid: u32) -> Self
        ensures { result ≡ user_set self uid }
    {
        Process { uid, ..self }
    }

    pub fn set_group(self, gid: u32) -> Self
        ensures { result ≡ group_set self gid }
    {
        Process { gid, ..self }
    }

    pub fn execute(self, file: u8, uid: u32, gid: u32) -> Self
        ensures { result ≡ executing self file uid gid }
    {
        Process {
            uid,
            gid,
            file,
            ..self
        }
    }
}

// What is asked about a policy: whether the account with these ids, which began in the file `start`, can come to the access of a kind, 0 read or
// 1 write, to the file `target`.
#[derive(Clone, Copy)]
pub struct Asked<'a> {
    pub uid: u32,
    pub gid: u32,
    pub start: &'a [u8],
    pub target: &'a [u8],
    pub kind: u8,
}
