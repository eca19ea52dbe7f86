// 84: by object, then user, then group, then new subject.
ghost use Rattle.std.specs.Prelude.{◌≡◌, cond, ◌&&◌, ◌+◌, ◌≤◌, ◌<◌, ltb, []};
ghost use Rattle.std.proofs.Math.Bool.{So};
ghost use Rattle.fields.specs.Fields.{object_count};
ghost use Rattle.tables.specs.Tables.{is_set, user_reach_cell, group_reach_cell};
ghost use Rattle.numbered.specs.Number.{Among, Celled};
ghost use Rattle.numbered.specs.Candidates.{goal_at, in_image, by_subject, by_user, object_step, object_steps};
ghost use Rattle.walk.specs.Walk as spec;
ghost use Rattle.walk.specs.Needed.{walk_of, Going, ObjectDone, EntryDone, Opened};
ghost use Rattle.walk.specs.Image.{image_of, is_another, followers_of, users_after, groups_after};

use crate::area::{Given, visit};
use crate::few::Few;
use crate::state::is_set;
use crate::{FLAGS, Progress};
use fields::{byte, object_count, object_modes, object_path};
use gran::Modes;
use numbered::Digits;
use tables::cell;

// An object: the entry that it stands in, its place there, and its path.
#[derive(Clone, Copy)]
pub struct Object {
    pub from: u8,
    pub place: u8,
    pub path: u8,
}

// An entry in force, the users and groups that can follow, and whether it was opened before, under the same special role.
#[derive(Clone, Copy)]
pub struct Follow<'a> {
    pub entry: u8,
    pub users: &'a [u8],
    pub groups: &'a [u8],
    pub again: bool,
}

// Whether subject `k` is in the object's image.
#[tactic(auto, unfolding(numbered::specs::Candidates::in_image))]
fn in_image(t: &[u8], x: Object, k: usize) -> bool
    requires { k < 64 }
    ensures { result ≡ in_image t.now x.from x.place x.path k }
{
    byte(t, cell::OBJECT + (64 * k + usize::from(x.from))) == x.place
        || usize::from(byte(t, cell::STAND + usize::from(x.path))) == k
}

// Whether choice `j` is another than the kept one, and allowed.
#[tactic(auto, unfolding(crate::specs::Image::is_another))]
fn is_another(t: &[u8], cells: usize, kept: usize, j: usize) -> bool
    requires { (cells ≤ 8192) × (j < 16) }
    ensures { result ≡ is_another t.now cells kept j }
{
    j != kept && is_set(t, cells + j)
}

// The kept choice, then the others that are allowed, into an empty list. It is lent: a list that is handed back is copied, right after its
// numbers were written one by one.
fn followers<const N: usize>(t: &[u8], cells: usize, count: usize, kept: usize, list: &mut Few<N>)
    requires { (cells ≤ 8192) × ((count ≤ 16) × ((kept < 16) × ((count < N) × (list.old ≡ [])))) }
    ensures { list.new ≡ followers_of t.now cells count kept }
{
    list.push(kept as u8);
    list.push_where(count, |j| is_another(t, cells, kept, j));
}

// With the user and the group of `d`, to each subject of the image.
fn exec_subjects(
    area: &mut [u16],
    given: Given,
    x: Object,
    image: &[u8],
    d: Digits,
    w: Progress,
) -> Progress
    requires { Going given.sizes given.place (walk_of area.old w) × (Among given.sizes d × (image.now ≡ image_of given.tables.now x.from x.place x.path given.sizes.subjects)) }
    ensures { walk_of area.new result ≡ spec.visits (goal_at given.entry.tables.now given.entry.sizes) given.entry.place (by_subject given.entry.tables.now given.entry.sizes d x.from x.place x.path) (walk_of area.old w) }
{
    let base = Digits { subject: 0, ..d }.number(given.sizes);
    let label = u16::from(x.place);
    let mut done = w;
    for &k in image {
        let n = base + usize::from(k);
        done = visit(area, given, label, n, done);
    }
    done
}

// How many of the groups go with user `j` of the list: where the entry was opened before, another than the kept user goes with the kept
// group alone.
fn group_count(again: bool, j: usize, count: usize) -> usize
    ensures { result ≡ cond (again && ltb 0 j) 1 count }
{
    if again && 0 < j { 1 } else { count }
}

// To each user that can follow, and with it to each group. Where the entry was opened before, the states of the other users with the other
// groups were found then.
fn exec_users(
    area: &mut [u16],
    given: Given,
    follow: &Follow,
    x: Object,
    d: Digits,
    w: Progress,
) -> Progress
    requires { Going given.sizes given.place (walk_of area.old w) × (Among given.sizes d × ((follow.now.groups.now ≡ groups_after given.tables.now given.sizes d x.from) × ((follow.now.users.now ≡ users_after given.tables.now given.sizes d x.from) × (So follow.now.again → ObjectDone given.tables.now given.sizes x.from x.place x.path d.special (walk_of area.old w))))) }
    ensures { walk_of area.new result ≡ spec.visits (goal_at given.entry.tables.now given.entry.sizes) given.entry.place (by_user given.entry.tables.now given.entry.sizes d x.from x.place x.path) (walk_of area.old w) }
{
    let mut image: Few<64> = Few::new();
    image.push_where(given.sizes.subjects, |k| in_image(given.tables, x, k));
    let subjects = image.as_slice();
    let groups = follow.groups;
    let mut done = w;
    for (j, &user) in follow.users.iter().enumerate() {
        let n = group_count(follow.again, j, groups.len());
        for &group in &groups[..n] {
            let to = Digits {
                user: usize::from(user),
                group: usize::from(group),
                ..d
            };
            done = exec_subjects(area, given, x, subjects, to, done);
        }
    }
    done
}

// The object at place `i` of the entry, if it can be executed.
#[tactic(auto, unfolding(crate::specs::Walk::visits, numbered::specs::Candidates::object_step))]
fn exec_object(
    area: &mut [u16],
    given: Given,
    follow: &Follow,
    i: u8,
    d: Digits,
    w: Progress,
) -> Progress
    requires { Going given.sizes given.place (walk_of area.old w) × (Among given.sizes d × ((follow.now.groups.now ≡ groups_after given.tables.now given.sizes d follow.now.entry) × ((follow.now.users.now ≡ users_after given.tables.now given.sizes d follow.now.entry) × ((i < object_count given.store.now follow.now.entry) × (So follow.now.again → EntryDone given.store.now given.tables.now given.sizes follow.now.entry d.special (walk_of area.old w)))))) }
    ensures { walk_of area.new result ≡ spec.visits (goal_at given.entry.tables.now given.entry.sizes) given.entry.place (object_step given.entry.store.now given.entry.tables.now given.entry.sizes d follow.now.entry i) (walk_of area.old w) }
{
    let entry = follow.entry;
    let modes = Modes {
        bits: object_modes(given.store, entry, i),
    };
    if !modes.executable() {
        return w;
    }
    let x = Object {
        from: entry,
        place: i,
        path: object_path(given.store, entry, i),
    };
    exec_users(area, given, follow, x, d, w)
}

// The objects of the entry in force, in its order. Which users and groups can follow is the same for each of them.
fn exec_objects(
    area: &mut [u16],
    given: Given,
    d: Digits,
    entry: u8,
    again: bool,
    w: Progress,
) -> Progress
    requires { Going given.sizes given.place (walk_of area.old w) × (Among given.sizes d × (So again → EntryDone given.store.now given.tables.now given.sizes entry d.special (walk_of area.old w))) }
    ensures { walk_of area.new result ≡ spec.visits (goal_at given.entry.tables.now given.entry.sizes) given.entry.place (object_steps given.entry.store.now given.entry.tables.now given.entry.sizes d entry) (walk_of area.old w) }
{
    let (t, z, e) = (given.tables, given.sizes, usize::from(entry));
    let mut users: Few<32> = Few::new();
    followers(t, cell::USER_REACH + 16 * e, z.users, d.user, &mut users);
    let mut groups: Few<16> = Few::new();
    followers(t, cell::GROUP_REACH + 8 * e, z.groups, d.group, &mut groups);
    let follow = Follow {
        entry,
        users: users.as_slice(),
        groups: groups.as_slice(),
        again,
    };
    let count = object_count(given.store, entry);
    let mut done = w;
    for i in 0..count {
        done = exec_object(area, given, &follow, i, d, done);
    }
    done
}

// Whether the entry allows the kept user and the kept group.
fn allows_kept(t: &[u8], d: Digits, entry: u8) -> bool
    requires { Celled d }
    ensures { result ≡ (is_set t.now (user_reach_cell entry d.user) && is_set t.now (group_reach_cell entry d.group)) }
{
    let e = usize::from(entry);
    is_set(t, cell::USER_REACH + (16 * e + d.user))
        && is_set(t, cell::GROUP_REACH + (8 * e + d.group))
}

// The objects of the entry in force, but where they lead to no new state: the same entry was opened under the same special role, and it
// allows the kept user and group too.
pub fn exec_once(
    area: &mut [u16],
    given: Given,
    d: Digits,
    entry: u8,
    opened: &mut [bool; FLAGS],
    w: Progress,
) -> Progress
    requires { Going given.sizes given.place (walk_of area.old w) × (Among given.sizes d × Opened given.store.now given.tables.now given.sizes opened.old (walk_of area.old w)) }
    ensures { (walk_of area.new result ≡ spec.visits (goal_at given.entry.tables.now given.entry.sizes) given.entry.place (object_steps given.entry.store.now given.entry.tables.now given.entry.sizes d entry) (walk_of area.old w)) × Opened given.entry.store.now given.entry.tables.now given.entry.sizes opened.new (walk_of area.new result) }
{
    let at = 256 * d.special + usize::from(entry);
    let again = opened[at];
    if again && allows_kept(given.tables, d, entry) {
        return w;
    }
    opened[at] = true;
    exec_objects(area, given, d, entry, again, w)
}
