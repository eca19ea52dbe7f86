// Rows of the store's tables as bytes, big-endian.
ghost use Rattle.std.specs.Prelude.{◌≡◌, [], ◌∷◌, ◌++◌, ◌%◌};
ghost use Rattle.store.specs.Layout.{two, role_row, entry_row};
ghost use Rattle.store.specs.Held.{Bounded};
ghost use Rattle.writing.specs.Added.{header_of};
ghost use Rattle.store.specs.Grow.{new_entry};

use store::{Tally, id_bytes};

// A role's kind and id, and the bytes that are kept for a name.
#[tactic(auto, unfolding(store::specs::Layout::four, store::specs::Layout::role_row, lines::specs::Line::zeros))]
pub fn role_row(kind: u8, id: u32) -> [u8; 22]
    ensures { result ≡ role_row (record { kind = kind; id = id }) }
{
    let mut row = [0u8; 22];
    row[0] = kind;
    row[1..5].copy_from_slice(&id_bytes(id));
    row
}

// Where a path's bytes are, and how many.
#[tactic(auto, unfolding(store::specs::Layout::two))]
pub fn place_row(at: u16, size: usize) -> [u8; 3]
    ensures { result ≡ two at ++ (size % 256 ∷ []) }
{
    let [high, low] = at.to_be_bytes();
    [high, low, (size % 256) as u8]
}

// An entry with no object and no id yet: its first would be at these places.
#[tactic(auto, unfolding(store::specs::Layout::two, store::specs::Layout::entry_row))]
pub fn entry_row(
    object: u16,
    id: u16,
    subject: u8,
    role: u8,
    caps: u8,
    users: u8,
    groups: u8,
) -> [u8; 12]
    ensures { result ≡ entry_row object id (new_entry subject role caps users groups) }
{
    let [object_high, object_low] = object.to_be_bytes();
    let [id_high, id_low] = id.to_be_bytes();
    [
        subject,
        role,
        caps,
        users,
        groups,
        object_high,
        object_low,
        0,
        id_high,
        id_low,
        0,
        0,
    ]
}

// The header by the tallies: a form, counts, and where the moves begin in the pool.
#[tactic(auto, unfolding(store::specs::Layout::two, crate::specs::Added::header_of))]
pub fn header_row(t: Tally, root: u8, subjects: u8) -> [u8; 16]
    requires { Bounded t }
    ensures { result ≡ header_of t root subjects }
{
    let roles = t.users + t.groups + t.specials + t.defaults;
    let used = t.bytes + 2 * t.moves + 4 * t.ids;
    let [objects_high, objects_low] = (t.objects as u16).to_be_bytes();
    let [used_high, used_low] = (used as u16).to_be_bytes();
    let [moves_high, moves_low] = (t.bytes as u16).to_be_bytes();
    [
        1,
        roles as u8,
        t.paths as u8,
        t.entries as u8,
        objects_high,
        objects_low,
        used_high,
        used_low,
        t.users as u8,
        t.groups as u8,
        t.specials as u8,
        subjects,
        root,
        t.moves as u8,
        moves_high,
        moves_low,
    ]
}
