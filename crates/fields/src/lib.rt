// The fields of the store: one small reader for each, for any bytes; no one reader for all, since each has its own definition and name. Rests on `store` and what that rests on.
// What a reader must believe stands in specs/Fields.antt. Where the store holds a policy, each reading is that policy's
// field: proofs/Header.antt, Roles.antt, Paths.antt and Entries.antt, and Again.antt for the whole policy.
#![tactic(auto)]

ghost use Rattle.std.specs.Prelude.{◌≡◌, ◌+◌, ◌*◌, ◌^◌, ◌<◌};
ghost use Rattle.fields.specs.Fields.{word_at, long_at, role_count, path_count, entry_count, user_count, group_count, special_count, subject_count, move_count, moves_place, role_kind, role_id, part_of, part_place, path_size, path_in, path_place, Handed, entry_subject, entry_role, entry_caps, user_mode, group_mode, first_object, object_count, first_id, uid_count, gid_count, path_from, object_path_at, object_modes_at, move_role, move_special, uid_at, gid_at};

pub use rows::byte;

// The header's bytes.
const ROLE_COUNT: usize = 1;

const PATH_COUNT: usize = 2;

const ENTRY_COUNT: usize = 3;

const USER_COUNT: usize = 8;

const GROUP_COUNT: usize = 9;

const SPECIAL_COUNT: usize = 10;

const SUBJECT_COUNT: usize = 11;

const MOVE_COUNT: usize = 13;

const MOVES: usize = 14;

// Where the tables begin.
const ROLES: usize = 16;

const PLACES: usize = 676;

const ENTRIES: usize = 1156;

const OBJECTS: usize = 1924;

const POOL: usize = 2948;

// The bytes of an entry's row behind its subject.
const ROLE: usize = 1;

const CAPS: usize = 2;

const USER_MODE: usize = 3;

const GROUP_MODE: usize = 4;

const FIRST_OBJECT: usize = 5;

const OBJECT_COUNT: usize = 7;

const FIRST_ID: usize = 8;

const UID_COUNT: usize = 10;

const GID_COUNT: usize = 11;

// The number in the two bytes at `at`.
#[tactic(auto, unfolding(crate::specs::Fields::word_at))]
pub fn word(store: &[u8], at: usize) -> u16
    ensures { result ≡ word_at store.now at }
{
    if store.len() <= at {
        return 0;
    }
    u16::from_be_bytes([store[at], byte(store, at + 1)])
}

// The number in the four bytes at `at`.
#[tactic(auto, unfolding(crate::specs::Fields::word_at, crate::specs::Fields::long_at))]
pub fn long(store: &[u8], at: usize) -> u32
    ensures { result ≡ long_at store.now at }
{
    if store.len() <= at {
        return 0;
    }
    u32::from_be_bytes([
        store[at],
        byte(store, at + 1),
        byte(store, at + 2),
        byte(store, at + 3),
    ])
}

// How many roles there are.
pub fn role_count(store: &[u8]) -> u8
    ensures { result ≡ role_count store.now }
{
    byte(store, ROLE_COUNT)
}

pub fn path_count(store: &[u8]) -> u8
    ensures { result ≡ path_count store.now }
{
    byte(store, PATH_COUNT)
}

pub fn entry_count(store: &[u8]) -> u8
    ensures { result ≡ entry_count store.now }
{
    byte(store, ENTRY_COUNT)
}

// How many user roles there are.
pub fn user_count(store: &[u8]) -> u8
    ensures { result ≡ user_count store.now }
{
    byte(store, USER_COUNT)
}

pub fn group_count(store: &[u8]) -> u8
    ensures { result ≡ group_count store.now }
{
    byte(store, GROUP_COUNT)
}

pub fn special_count(store: &[u8]) -> u8
    ensures { result ≡ special_count store.now }
{
    byte(store, SPECIAL_COUNT)
}

// How many paths are in S.
pub fn subject_count(store: &[u8]) -> u8
    ensures { result ≡ subject_count store.now }
{
    byte(store, SUBJECT_COUNT)
}

pub fn move_count(store: &[u8]) -> u8
    ensures { result ≡ move_count store.now }
{
    byte(store, MOVE_COUNT)
}

// Where the moves begin in the pool.
fn moves_place(store: &[u8]) -> u16
    ensures { result ≡ moves_place store.now }
{
    word(store, MOVES)
}

// Where the row of role `r` begins.
fn role_row(r: u8) -> usize
    ensures { result ≡ 16 + 22 * r }
{
    ROLES + 22 * usize::from(r)
}

// The kind of role `r`.
pub fn role_kind(store: &[u8], r: u8) -> u8
    ensures { result ≡ role_kind store.now r }
{
    byte(store, role_row(r))
}

pub fn role_id(store: &[u8], r: u8) -> u32
    ensures { result ≡ role_id store.now r }
{
    long(store, role_row(r) + 1)
}

// The part of the store that begins in the pool at `place`, or an empty one where that runs past the end.
#[tactic(auto, unfolding(crate::specs::Fields::part_of, crate::specs::Fields::part_place))]
fn pool_part(store: &[u8], place: u16, size: u8) -> &[u8]
    ensures { Handed store.entry.ref_ptr (part_place store.now (2948 + place) size) (part_of store.now (2948 + place) size) result.ref_ptr result.now }
{
    let start = POOL + usize::from(place);
    let end = start + usize::from(size);
    if end <= store.len() {
        &store[start..end]
    } else {
        &store[..0]
    }
}

// Where the store says the place of path `n`.
fn place_row(n: u8) -> usize
    ensures { result ≡ 676 + 3 * n }
{
    PLACES + 3 * usize::from(n)
}

// The length that the store states for path `n`.
pub fn path_size(store: &[u8], n: u8) -> u8
    ensures { result ≡ path_size store.now n }
{
    byte(store, place_row(n) + 2)
}

// The bytes of path `n`, or an empty part of the store where there is no such path.
#[tactic(auto, unfolding(crate::specs::Fields::path_in, crate::specs::Fields::path_place, crate::specs::Fields::part_of, crate::specs::Fields::part_place))]
pub fn path(store: &[u8], n: u8) -> &[u8]
    ensures { Handed store.entry.ref_ptr (path_place store.now n) (path_in store.now n) result.ref_ptr result.now }
{
    let at = place_row(n);
    if store.len() < at + 3 || path_count(store) <= n {
        return &store[..0];
    }
    pool_part(store, word(store, at), path_size(store, n))
}

// Where the row of entry `e` begins.
fn entry_row(e: u8) -> usize
    ensures { result ≡ 1156 + 12 * e }
{
    ENTRIES + 12 * usize::from(e)
}

// The path number of the subject of entry `e`.
pub fn entry_subject(store: &[u8], e: u8) -> u8
    ensures { result ≡ entry_subject store.now e }
{
    byte(store, entry_row(e))
}

pub fn entry_role(store: &[u8], e: u8) -> u8
    ensures { result ≡ entry_role store.now e }
{
    byte(store, entry_row(e) + ROLE)
}

// The capabilities of entry `e`.
pub fn entry_caps(store: &[u8], e: u8) -> u8
    ensures { result ≡ entry_caps store.now e }
{
    byte(store, entry_row(e) + CAPS)
}

// Which users entry `e` lets a process become: 0 all, 1 only those listed, 2 all but those listed.
pub fn user_mode(store: &[u8], e: u8) -> u8
    ensures { result ≡ user_mode store.now e }
{
    byte(store, entry_row(e) + USER_MODE)
}

pub fn group_mode(store: &[u8], e: u8) -> u8
    ensures { result ≡ group_mode store.now e }
{
    byte(store, entry_row(e) + GROUP_MODE)
}

// The place of the first object of entry `e` among all objects.
pub fn first_object(store: &[u8], e: u8) -> u16
    ensures { result ≡ first_object store.now e }
{
    word(store, entry_row(e) + FIRST_OBJECT)
}

pub fn object_count(store: &[u8], e: u8) -> u8
    ensures { result ≡ object_count store.now e }
{
    byte(store, entry_row(e) + OBJECT_COUNT)
}

// Where the ids of entry `e` begin in the pool.
fn first_id(store: &[u8], e: u8) -> u16
    ensures { result ≡ first_id store.now e }
{
    word(store, entry_row(e) + FIRST_ID)
}

// How many UIDs entry `e` lists.
pub fn uid_count(store: &[u8], e: u8) -> u8
    ensures { result ≡ uid_count store.now e }
{
    byte(store, entry_row(e) + UID_COUNT)
}

pub fn gid_count(store: &[u8], e: u8) -> u8
    ensures { result ≡ gid_count store.now e }
{
    byte(store, entry_row(e) + GID_COUNT)
}

// Where the row of the object begins that stands `i` behind the one at place `first`.
fn object_row(first: u16, i: u8) -> usize
    ensures { result ≡ 1924 + 2 * (first + i) }
{
    OBJECTS + 2 * (usize::from(first) + usize::from(i))
}

// The path number of the object that stands `i` behind the one at place `first`.
pub fn path_from(store: &[u8], first: u16, i: u8) -> u8
    ensures { result ≡ path_from store.now first i }
{
    byte(store, object_row(first, i))
}

// The path number of object `i` of entry `e`.
pub fn object_path(store: &[u8], e: u8, i: u8) -> u8
    ensures { result ≡ object_path_at store.now e i }
{
    path_from(store, first_object(store, e), i)
}

pub fn object_modes(store: &[u8], e: u8, i: u8) -> u8
    ensures { result ≡ object_modes_at store.now e i }
{
    byte(store, object_row(first_object(store, e), i) + 1)
}

// Where move `i` stands.
fn move_row(store: &[u8], i: u8) -> usize
    ensures place { result ≡ 2948 + moves_place store.now + 2 * i }
    ensures within { result < 2 ^ 17 }
{
    POOL + usize::from(moves_place(store)) + 2 * usize::from(i)
}

// The role of move `i`, and the special role that it may take.
pub fn move_role(store: &[u8], i: u8) -> u8
    ensures { result ≡ move_role store.now i }
{
    byte(store, move_row(store, i))
}

pub fn move_special(store: &[u8], i: u8) -> u8
    ensures { result ≡ move_special store.now i }
{
    byte(store, move_row(store, i) + 1)
}

// Where id `i` of entry `e` stands.
fn id_row(store: &[u8], e: u8, i: usize) -> usize
    requires { i < 512 }
    ensures { result ≡ 2948 + first_id store.now e + 4 * i }
{
    POOL + usize::from(first_id(store, e)) + 4 * i
}

// Id `i` that entry `e` lists: its UIDs come first, its GIDs behind them.
pub fn uid(store: &[u8], e: u8, i: u8) -> u32
    ensures { result ≡ uid_at store.now e i }
{
    long(store, id_row(store, e, usize::from(i)))
}

pub fn gid(store: &[u8], e: u8, i: u8) -> u32
    ensures { result ≡ gid_at store.now e i }
{
    let place = usize::from(uid_count(store, e)) + usize::from(i);
    long(store, id_row(store, e, place))
}
