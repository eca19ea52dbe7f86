// Roles and ids in a loaded store: the role of an id, the special roles that a role may take, the ids that an entry allows. Rests on `lookup` and what that rests on.
// What a reader must believe stands in gran's specs/, and in specs/Ids.antt: whose ids are meant (`kind_of`, `allowed_of`), and what the loops find.
#![tactic(auto)]

ghost use Rattle.std.specs.Prelude.{◌≡◌, List, ℕ, ◌≤◌, ◌<◌, length};
ghost use Rattle.gran.specs.Policy.{Policy};
ghost use Rattle.gran.specs.Lists.{none, member};
ghost use Rattle.gran.specs.Good.{roles_of};
ghost use Rattle.gran.specs.Role.{role_of, default_role, is_role, is_move, may_take, allows};
ghost use Rattle.gran.specs.Abstract.{is_free, free_id, reaches};
ghost use Rattle.store.specs.Held.{Loaded};
ghost use Rattle.fields.specs.Fields.{role_read, move_read};
ghost use Rattle.lookup.specs.Lookup.{entry_at};
ghost use Rattle.ids.specs.Ids.{kind_of, allowed_of, id_count, id_at, allowed_read, candidate_count, candidate_at, offered};

use store::RoleKind;

// Kinds of roles as the store has them, in bytes: `role_of` and `has_free` answer for any byte.
pub const USER: u8 = RoleKind::User as u8;

pub const GROUP: u8 = RoleKind::Group as u8;

const DEFAULT: u8 = RoleKind::Default as u8;

// Under modes 0 and 2 some id below this one is free.
const BELOW: u8 = 32;

// Whose ids.
#[derive(Clone, Copy, PartialEq, Eq)]
pub enum Ids {
    Users,
    Groups,
}

impl Ids {
    // The kind of the roles that have such ids.
    pub fn kind(self) -> u8
        ensures { result ≡ kind_of self }
    {
        match self {
            Ids::Users => USER,
            Ids::Groups => GROUP,
        }
    }
}

// Whether role `r` is of the kind and has the id.
fn is_role(store: &[u8], r: u8, kind: u8, id: u32) -> bool
    ensures { result ≡ is_role kind id (role_read store.now r) }
{
    fields::role_kind(store, r) == kind && fields::role_id(store, r) == id
}

// The role of the kind that has the id, or none.
pub fn role_of(store: &[u8], kind: u8, id: u32) -> u8
    ensures { (P : Policy) (rest : List ℕ) → Loaded P rest store.now → result ≡ role_of P kind id }
{
    (0..fields::role_count(store))
        .find(|r| is_role(store, *r, kind, id))
        .unwrap_or(gran::NONE)
}

// The default role, whose id is 0.
pub fn default_role(store: &[u8]) -> u8
    ensures { (P : Policy) (rest : List ℕ) → Loaded P rest store.now → result ≡ default_role P }
{
    role_of(store, DEFAULT, 0)
}

// Whether move `i` is from the role to the special one.
fn is_move(store: &[u8], i: u8, role: u8, special: u8) -> bool
    ensures { result ≡ is_move role special (move_read store.now i) }
{
    fields::move_role(store, i) == role && fields::move_special(store, i) == special
}

// Whether the role lets a process take the special role, or none.
#[tactic(auto, unfolding(gran::specs::Role::may_take))]
pub fn may_take(store: &[u8], role: u8, special: u8) -> bool
    ensures { (P : Policy) (rest : List ℕ) → Loaded P rest store.now → result ≡ may_take P role special }
{
    special == gran::NONE
        || (0..fields::move_count(store)).any(|i| is_move(store, i, role, special))
}

// The ids of one kind of roles that an entry allows: users for kind user, else groups. Not an `Ids`: `has_free` takes any kind.
#[derive(Clone, Copy)]
struct Allowed<'a> {
    store: &'a [u8],
    kind: u8,
    entry: u8,
}

// From the listed ids up to the least free one all is in line: where the length of the store is known, a call would read it from this struct.
impl<'a> Allowed<'a> {
    fn mode(self) -> u8
        ensures { result ≡ (allowed_read self.entry.store.now self.entry.kind self.entry.entry).mode }
    {
        if self.kind == USER {
            fields::user_mode(self.store, self.entry)
        } else {
            fields::group_mode(self.store, self.entry)
        }
    }

    // How many are listed.
    #[tactic(auto, unfolding(crate::specs::Ids::id_count))]
    fn count(self) -> u8
        ensures { result ≡ id_count self.entry.store.now self.entry.kind self.entry.entry }
    {
        if self.kind == USER {
            fields::uid_count(self.store, self.entry)
        } else {
            fields::gid_count(self.store, self.entry)
        }
    }

    // The listed id at place `i`.
    #[tactic(auto, unfolding(crate::specs::Ids::id_at))]
    #[inline(always)]
    fn at(self, i: u8) -> u32
        ensures { result ≡ id_at self.entry.store.now self.entry.kind self.entry.entry i }
    {
        if self.kind == USER {
            fields::uid(self.store, self.entry, i)
        } else {
            fields::gid(self.store, self.entry, i)
        }
    }

    // Whether the id is listed.
    #[inline(always)]
    fn lists(self, id: u32) -> bool
        ensures { result ≡ member id (allowed_read self.entry.store.now self.entry.kind self.entry.entry).ids }
    {
        (0..self.count()).any(|i| id == self.at(i))
    }

    // Whether the id is allowed.
    #[tactic(auto, unfolding(gran::specs::Role::allows))]
    #[inline(always)]
    fn allows(self, id: u32) -> bool
        ensures { result ≡ allows (allowed_read self.entry.store.now self.entry.kind self.entry.entry) id }
    {
        gran::allowed_by(self.mode(), self.lists(id), id)
    }

    // Whether the id is allowed, and has no role of the kind.
    #[inline(always)]
    fn is_free(self, id: u32) -> bool
        ensures { (P : Policy) (rest : List ℕ) → Loaded P rest self.entry.store.now → self.entry.entry < length P.entries → result ≡ is_free P self.entry.kind (allowed_of self.entry.kind (entry_at P self.entry.entry)) id }
    {
        self.allows(id) && role_of(self.store, self.kind, id) == gran::NONE
    }

    // The ids among which the smallest free one is: the listed ones where only those are allowed, else the first.
    #[tactic(auto, unfolding(crate::specs::Ids::candidate_count))]
    fn candidate_count(self) -> u8
        ensures { result ≡ candidate_count self.entry.store.now self.entry.kind self.entry.entry }
    {
        if self.mode() == 1 {
            self.count()
        } else {
            BELOW
        }
    }

    #[tactic(auto, unfolding(crate::specs::Ids::candidate_at))]
    #[inline(always)]
    fn candidate(self, i: u8) -> u32
        ensures { result ≡ candidate_at self.entry.store.now self.entry.kind self.entry.entry i }
    {
        if self.mode() == 1 {
            self.at(i)
        } else {
            u32::from(i)
        }
    }

    // Candidate `i` where it is free, else the id that names nobody.
    #[tactic(auto, unfolding(crate::specs::Ids::offered))]
    #[inline(always)]
    fn free_at(self, i: u8) -> u32
        ensures { (P : Policy) (rest : List ℕ) → Loaded P rest self.entry.store.now → self.entry.entry < length P.entries → result ≡ offered P self.entry.kind (allowed_of self.entry.kind (entry_at P self.entry.entry)) (candidate_at self.entry.store.now self.entry.kind self.entry.entry) i }
    {
        let id = self.candidate(i);
        if self.is_free(id) { id } else { gran::NO_ID }
    }

    // The smallest allowed id that has no role of the kind, or the one that names nobody.
    #[inline(always)]
    fn least_free(self) -> u32
        ensures { (P : Policy) (rest : List ℕ) → Loaded P rest self.entry.store.now → self.entry.entry < length P.entries → length (roles_of P self.entry.kind) ≤ 15 → result ≡ free_id P self.entry.kind (allowed_of self.entry.kind (entry_at P self.entry.entry)) }
    {
        let mut least = gran::NO_ID;
        for i in 0..self.candidate_count() {
            least = least.min(self.free_at(i));
        }
        least
    }
}

// Whether the entry allows the id.
pub fn allows(store: &[u8], ids: Ids, entry: u8, id: u32) -> bool
    ensures { (P : Policy) (rest : List ℕ) → Loaded P rest store.now → entry < length P.entries → result ≡ allows (allowed_of (kind_of ids) (entry_at P entry)) id }
{
    let allowed = Allowed {
        store,
        kind: ids.kind(),
        entry,
    };
    allowed.allows(id)
}

// Whether the entry allows an id that has no role of the kind: where it allows all but a few there always is one.
pub fn has_free(store: &[u8], kind: u8, entry: u8) -> bool
    ensures { (P : Policy) (rest : List ℕ) → Loaded P rest store.now → entry < length P.entries → length (roles_of P kind) ≤ 15 → result ≡ reaches P kind (allowed_of kind (entry_at P entry)) none }
{
    let allowed = Allowed { store, kind, entry };
    allowed.mode() != 1 || allowed.least_free() != gran::NO_ID
}

// The smallest id that the entry allows and that has no role, or the one that names nobody.
pub fn free_id(store: &[u8], ids: Ids, entry: u8) -> u32
    ensures { (P : Policy) (rest : List ℕ) → Loaded P rest store.now → entry < length P.entries → result ≡ free_id P (kind_of ids) (allowed_of (kind_of ids) (entry_at P entry)) }
{
    let allowed = Allowed {
        store,
        kind: ids.kind(),
        entry,
    };
    allowed.least_free()
}
