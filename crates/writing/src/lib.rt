// Writers: what each frame adds to a lent store, and the header at the end. Each takes the tallies so far and gives the next ones, so that
// store and tallies stay two: a value of both would have to be taken apart for it.
// Rests on `rows`, `gran` and `store`. What a reader must believe stands in specs/Added.antt, besides what `store` says.
#![tactic(auto)]

ghost use Rattle.std.specs.Prelude.{◌≡◌, [], ◌∷◌, ◌+◌, ◌-◌, ◌*◌, ◌%◌, ◌≤◌, ◌<◌, length};
ghost use Rattle.rows.specs.Rows.{written};
ghost use Rattle.store.specs.Layout.{four};
ghost use Rattle.store.specs.Held.{Bounded, role_tally, path_tally, move_tally, entry_tally, object_tally, uid_tally, gid_tally};
ghost use Rattle.store.specs.Grow.{new_entry};
ghost use Rattle.writing.specs.Added.{RoleAdded, PathAdded, MoveAdded, EntryAdded, ObjectAdded, UidAdded, GidAdded, Finished};

use store::{Tally, id_bytes};

mod encode;

// A role's row goes behind the roles.
pub fn add_role(store: &mut [u8], t: Tally, kind: u8, id: u32) -> Tally
    requires bounded { Bounded (role_tally t kind) }
    requires in_bounds { 16384 ≤ length store.old }
    ensures { RoleAdded (record { kind = kind; id = id }) t store.old result store.new }
{
    let at = (t.users + t.groups + t.specials + t.defaults) * 22;
    let row = encode::role_row(kind, id);
    rows::put_row(&mut store[16..676], at, &row);
    t.with_role(kind)
}

// A path's place goes behind the places, and its bytes behind the pool.
pub fn add_path(store: &mut [u8], t: Tally, path: &[u8]) -> Tally
    requires bounded { Bounded (path_tally t (length path.now)) }
    requires in_bounds { 16384 ≤ length store.old }
    ensures { PathAdded path.now t store.old result store.new }
{
    let row = encode::place_row(t.bytes as u16, path.len());
    rows::put_row(&mut store[676..964], t.paths * 3, &row);
    rows::put_row(&mut store[2948..16384], t.bytes, path);
    t.with_path(path.len())
}

// A move goes behind the pool, before any id.
pub fn add_move(store: &mut [u8], t: Tally, role: u8, special: u8) -> Tally
    requires bounded { Bounded (move_tally t) }
    requires in_bounds { 16384 ≤ length store.old }
    ensures { MoveAdded (record { role = role; special = special }) t store.old result store.new }
{
    let used = t.bytes + 2 * t.moves;
    rows::put_row(&mut store[2948..16384], used, &[role, special]);
    t.with_move()
}

// An entry's row goes behind the entries.
pub fn add_entry(
    store: &mut [u8],
    t: Tally,
    subject: u8,
    role: u8,
    caps: u8,
    users: u8,
    groups: u8,
) -> Tally
    requires bounded { Bounded (entry_tally t users groups) }
    requires in_bounds { 16384 ≤ length store.old }
    ensures { EntryAdded (new_entry subject role caps users groups) t store.old result store.new }
{
    let used = t.bytes + 2 * t.moves + 4 * t.ids;
    let objects = t.objects as u16;
    let row = encode::entry_row(objects, used as u16, subject, role, caps, users, groups);
    rows::put_row(&mut store[1156..1924], t.entries * 12, &row);
    t.with_entry(users, groups)
}

// Writes a count into the last entry's row: its low byte, whatever the count is.
fn put_count(store: &mut [u8], entries: usize, field: usize, count: usize)
    requires { (0 < entries) × (entries ≤ 64) × (field < 12) × (16384 ≤ length store.old) }
    ensures { store.new ≡ written 1156 768 ((entries - 1) * 12 + field) (count % 256 ∷ []) store.old }
{
    let at = (entries - 1) * 12 + field;
    rows::put_row(&mut store[1156..1924], at, &[(count % 256) as u8]);
}

// An object's row goes behind the objects, and the last entry has one more.
pub fn add_object(store: &mut [u8], t: Tally, path: u8, modes: u8) -> Tally
    requires bounded { Bounded (object_tally t) }
    requires entries_nonzero { (0 < t.entries) × (16384 ≤ length store.old) }
    ensures { ObjectAdded (record { path = path; modes = modes }) t store.old result store.new }
{
    rows::put_row(&mut store[1924..2948], t.objects * 2, &[path, modes]);
    let next = t.with_object();
    put_count(store, t.entries, 7, next.last.objects);
    next
}

// Writes an id behind the pool, and how many of its kind the last entry has then.
fn put_id(store: &mut [u8], t: Tally, id: u32, field: usize, count: usize)
    requires { (0 < t.entries) × (t.entries ≤ 64) × (field < 12) × (t.bytes + 2 * t.moves + 4 * (t.ids + 1) ≤ 13436) × (16384 ≤ length store.old) }
    ensures { store.new ≡ written 1156 768 ((t.entries - 1) * 12 + field) (count % 256 ∷ []) (written 2948 13436 (t.bytes + 2 * t.moves + 4 * t.ids) (four id) store.old) }
{
    let used = t.bytes + 2 * t.moves + 4 * t.ids;
    rows::put_row(&mut store[2948..16384], used, &id_bytes(id));
    put_count(store, t.entries, field, count);
}

// A listed UID of the last entry. (What it shares with `add_gid` is `put_id`; they count in other bytes.)
pub fn add_uid(store: &mut [u8], t: Tally, id: u32) -> Tally
    requires bounded { Bounded (uid_tally t) }
    requires entries_nonzero { (0 < t.entries) × (16384 ≤ length store.old) }
    ensures { UidAdded id t store.old result store.new }
{
    let next = t.with_uid();
    put_id(store, t, id, 10, next.last.uids);
    next
}

// A listed GID of the last entry.
pub fn add_gid(store: &mut [u8], t: Tally, id: u32) -> Tally
    requires bounded { Bounded (gid_tally t) }
    requires entries_nonzero { (0 < t.entries) × (16384 ≤ length store.old) }
    ensures { GidAdded id t store.old result store.new }
{
    let next = t.with_gid();
    put_id(store, t, id, 11, next.last.gids);
    next
}

// Writes the header, when all is loaded: the number of `/` and how many paths S has.
pub fn finish(store: &mut [u8], t: Tally, root: u8, subjects: u8)
    requires bounded { Bounded t }
    requires in_bounds { 16384 ≤ length store.old }
    ensures { Finished t root subjects store.old store.new }
{
    let row = encode::header_row(t, root, subjects);
    rows::put_row(&mut store[0..16], 0, &row);
}
