// The tables that a search fills first from a loaded store, in 8,192 lent bytes. Rests on `lookup`, `ids`, `runs` and what those rest on.
// What a reader must believe stands in specs/Tables.antt: `Tabled`. specs/Regions.antt says what each part is filled with.
#![tactic(auto)]

ghost use Rattle.std.specs.Prelude.{◌≡◌, Bool, false, List, ℕ, ◌+◌, ◌*◌, ◌≤◌, ◌<◌, eqb, length, get_or};
ghost use Rattle.gran.specs.Lists.{only, numbers, place};
ghost use Rattle.gran.specs.Policy.{Policy};
ghost use Rattle.gran.specs.Match.{paths_of_s, is_subject};
ghost use Rattle.gran.specs.Good.{roles_of};
ghost use Rattle.gran.specs.Access.{grants};
ghost use Rattle.gran.specs.Abstract.{reaches};
ghost use Rattle.runs.specs.Steps.{choices};
ghost use Rattle.store.specs.Held.{Loaded};
ghost use Rattle.fields.specs.Fields.{path_count, entry_count};
ghost use Rattle.lookup.specs.Index.{entry_index, object_index};
ghost use Rattle.lookup.specs.Lookup.{entry_at, Graded};
ghost use Rattle.ids.specs.Ids.{kind_of, allowed_of};
ghost use Rattle.tables.specs.Tables.{Tabled};
ghost use Rattle.tables.specs.Regions.{Written, Front, Region, Stands, Grants, role_kind_of, Choice, Counted, Offers, offers, rows_for, Lists, Tests, RowFilled, RowsFilled};

use ids::Ids;
use rows::put;
use store::RoleKind;

pub mod cell; // cell.rt: where cells stand, for those who read the tables

// Which roles a choice is of.
#[derive(Clone, Copy)]
enum Kind {
    Special,
    // Those that have the ids.
    Of(Ids),
}

impl Kind {
    // The kind of these roles, as the store has it.
    fn byte(self) -> u8
        ensures { result ≡ role_kind_of self }
    {
        match self {
            Kind::Special => RoleKind::Special.code(),
            Kind::Of(ids) => ids.kind(),
        }
    }
}

// Writes the numbers below `count` that pass, in order, from `at` on. What is written behind them is none of them.
fn fill_passing<F: Fn(u8) -> bool>(count: u8, passes: F, mut at: usize, part: &mut [u8])
    requires callable { (i : ℕ) → i < count → F.pre passes i }
    requires near { at < 256 }
    ensures { (test : ℕ → Bool) (whole : List ℕ) → ((i : ℕ) (b : Bool) → i < count → F.post passes i b → b ≡ test i) → length whole ≤ length part.old → Written whole at part.old (only test (numbers 0 count)) → Front whole part.new }
{
    for i in 0..count {
        put(part, at, i);
        if passes(i) {
            at += 1;
        }
    }
}

// None, then the roles of a kind by number. What is written behind them is no choice.
fn fill_choices(store: &[u8], kind: Kind, part: &mut [u8])
    ensures { (P : Policy) (rest : List ℕ) → Loaded P rest store.now → Front (choices P (role_kind_of kind)) part.new }
{
    put(part, 0, gran::NONE);
    let wanted = kind.byte();
    let count = fields::role_count(store);
    fill_passing(count, |r| fields::role_kind(store, r) == wanted, 1, part);
}

// For each number that a path can have whether some entry has that path as its subject. (A load marks them by its tallies: `ending`.)
fn subject_marks(store: &[u8]) -> [bool; 256]
    ensures { (P : Policy) (rest : List ℕ) → Loaded P rest store.now → (c : ℕ) → is_subject P c ≡ get_or result c false }
{
    let mut marks = [false; 256];
    for e in 0..fields::entry_count(store) {
        let c = fields::entry_subject(store, e);
        marks[usize::from(c)] = true;
    }
    marks
}

// The paths in S by number. What is written behind them is no subject.
fn fill_subjects(store: &[u8], part: &mut [u8])
    ensures { (P : Policy) (rest : List ℕ) → Loaded P rest store.now → Front (paths_of_s P) part.new }
{
    let marks = subject_marks(store);
    fill_passing(
        fields::path_count(store),
        |c| marks[usize::from(c)],
        0,
        part,
    );
}

// The place of `c` in the list, or none: a number, as the tables hold it and as `place` says it.
pub fn place_in(list: &[u8], c: u8) -> u8
    requires { length list.now ≤ 64 }
    ensures { result ≡ place (eqb c) 0 list.now }
{
    match list.iter().position(|x| c == *x) {
        Some(i) => i as u8,
        None => gran::NONE,
    }
}

// The lists: special roles, users, groups, subjects. One slice of 96 places, since its parts are lent one by one and it is copied whole.
fn fill_lists(store: &[u8], lists: &mut [u8])
    requires { length lists.old ≡ 96 }
    ensures { (P : Policy) (rest : List ℕ) → Loaded P rest store.now → Lists P lists.new }
{
    fill_choices(store, Kind::Special, &mut lists[0..8]);
    fill_choices(store, Kind::Of(Ids::Users), &mut lists[8..24]);
    fill_choices(store, Kind::Of(Ids::Groups), &mut lists[24..32]);
    fill_subjects(store, &mut lists[32..96]);
}

// The place among the subjects of the one that path `c` stands for; a subject stands for itself, and is not matched again.
fn stand(store: &[u8], subjects: &[u8], c: u8) -> u8
    requires { length subjects.now ≤ 64 }
    ensures { (P : Policy) (rest : List ℕ) → Loaded P rest store.now → Stands subjects.now P c result }
{
    let own = place_in(subjects, c);
    if own != gran::NONE {
        return own;
    }
    lookup::closest_in(store, fields::path(store, c), subjects)
}

fn fill_stands(store: &[u8], subjects: &[u8], part: &mut [u8])
    requires { length subjects.now ≤ 64 }
    ensures { Region store.now (Stands subjects.now) (path_count store.now) part.new }
{
    for c in 0..fields::path_count(store) {
        put(part, usize::from(c), stand(store, subjects, c));
    }
}

// Whether entry `e` grants the access to the file that has the grades.
fn grants_in(store: &[u8], of: &[u8], kind: u8, e: u8) -> bool
    ensures { (P : Policy) (rest f : List ℕ) → Loaded P rest store.now → Graded P f of.now → e < length P.entries → result ≡ grants P kind (entry_at P e) f }
{
    let i = lookup::object_in(store, e, of);
    let modes = gran::Modes {
        bits: fields::object_modes(store, e, i),
    };
    modes.grants(kind)
}

fn fill_grants(store: &[u8], of: &[u8], kind: u8, part: &mut [u8])
    ensures { Region store.now (Grants kind of.now) (entry_count store.now) part.new }
{
    for e in 0..fields::entry_count(store) {
        let test = grants_in(store, of, kind, e);
        put(part, usize::from(e), u8::from(test));
    }
}

// Whether entry `e` allows an id that has the choice, a role that has such ids or none.
fn reach(store: &[u8], ids: Ids, e: u8, choice: u8) -> bool
    ensures { (P : Policy) (rest : List ℕ) → Loaded P rest store.now → e < length P.entries → Choice P (kind_of ids) choice → result ≡ reaches P (kind_of ids) (allowed_of (kind_of ids) (entry_at P e)) choice }
{
    if choice == gran::NONE {
        return ids::has_free(store, ids.kind(), e);
    }
    ids::allows(store, ids, e, fields::role_id(store, choice))
}

// Whether a row has the choice: a role may take the special role, an entry allows an id that has the user or group role.
#[tactic(auto, unfolding(crate::specs::Regions::offers, crate::specs::Regions::rows_for))]
fn offered(store: &[u8], kind: Kind, row: u8, choice: u8) -> bool
    ensures { (P : Policy) (rest : List ℕ) → Loaded P rest store.now → row < rows_for P (role_kind_of kind) → Choice P (role_kind_of kind) choice → result ≡ offers P (role_kind_of kind) row choice }
{
    match kind {
        Kind::Special => ids::may_take(store, row, choice),
        Kind::Of(ids) => reach(store, ids, row, choice),
    }
}

// How many roles there are of a kind.
fn roles_of(store: &[u8], kind: Kind) -> u8
    ensures { (P : Policy) (rest : List ℕ) → Loaded P rest store.now → result ≡ length (roles_of P (role_kind_of kind)) }
{
    match kind {
        Kind::Special => fields::special_count(store),
        Kind::Of(Ids::Users) => fields::user_count(store),
        Kind::Of(Ids::Groups) => fields::group_count(store),
    }
}

// How many of the first cells of a list may hold a choice of the kind: none and its roles, as far as there is room.
fn choice_count(store: &[u8], kind: Kind, room: usize) -> usize
    ensures { (result ≤ room) × Counted store.now (role_kind_of kind) room result }
{
    room.min(1 + usize::from(roles_of(store, kind)))
}

// Which of the first `count` choices a row has, in its cells: a row has one for each place of the list.
fn fill_offer_row(store: &[u8], kind: Kind, row: u8, choices: &[u8], count: usize, part: &mut [u8])
    requires { (length choices.now ≤ 16) × (count ≤ length choices.now) }
    ensures { Counted store.now (role_kind_of kind) (length choices.now) count → Region store.now (Offers (role_kind_of kind) choices.now) (row * length choices.now) part.old → Region store.now (Offers (role_kind_of kind) choices.now) (row * length choices.now + length choices.now) part.new }
{
    let first = usize::from(row) * choices.len();
    for (j, choice) in choices[..count].iter().enumerate() {
        let test = offered(store, kind, row, *choice);
        put(part, first + j, u8::from(test));
    }
}

// For each of the rows which of the choices it has. The cells behind the choices are left.
fn fill_offers(store: &[u8], kind: Kind, rows: u8, choices: &[u8], part: &mut [u8])
    requires { length choices.now ≤ 16 }
    ensures { Region store.now (Offers (role_kind_of kind) choices.now) (rows * length choices.now) part.new }
{
    let count = choice_count(store, kind, choices.len());
    for row in 0..rows {
        fill_offer_row(store, kind, row, choices, count, part);
    }
}

// The rows of subject `k`, which is path `c`.
fn fill_row(store: &[u8], entries: &[u8], objects: &[u8], c: u8, k: usize, part: &mut [u8])
    requires entries_value { (entries.now ≡ entry_index store.now) × (objects.now ≡ object_index store.now) }
    requires k_bound { k < 64 }
    requires part_len { length part.old ≡ 6144 }
    ensures { RowFilled store.now c k part.old part.new }
{
    let rows = lookup::rows_of(store, entries, objects, c);
    let at = 32 * k;
    part[at..at + 32].copy_from_slice(&rows.force);
    let behind = 2048 + 64 * k;
    part[behind..behind + 64].copy_from_slice(&rows.places);
}

// The rows of all subjects.
fn fill_rows(store: &[u8], subjects: &[u8], part: &mut [u8])
    requires subjects_len_bound { length subjects.now ≤ 64 }
    requires part_len { length part.old ≡ 6144 }
    ensures { RowsFilled store.now subjects.now (length subjects.now) part.new }
{
    let mut entries = [gran::NONE; 3072];
    lookup::index_entries(store, &mut entries);
    let mut objects = [gran::NONE; 6144];
    lookup::index_objects(store, &mut objects);
    for (k, c) in subjects.iter().enumerate() {
        fill_row(store, &entries, &objects, *c, k, part);
    }
}

// The tests: grants by entry, special roles by role, the default role, groups and users by entry.
fn fill_tests(store: &[u8], target: &[u8], kind: u8, lists: &[u8], part: &mut [u8])
    requires lists_len { length lists.now ≡ 96 }
    requires part_len { length part.old ≡ 1856 }
    ensures { (P : Policy) (rest : List ℕ) → Loaded P rest store.now → Lists P lists.now → Tests P (record { kind = kind; target = target.now }) part.new }
{
    let grades = lookup::grades_for(store, target);
    let roles = fields::role_count(store);
    let entries = fields::entry_count(store);
    fill_grants(store, &grades.of, kind, &mut part[0..64]);
    fill_offers(
        store,
        Kind::Special,
        roles,
        &lists[0..8],
        &mut part[64..304],
    );
    put(&mut part[304..320], 0, ids::default_role(store));
    fill_offers(
        store,
        Kind::Of(Ids::Groups),
        entries,
        &lists[24..32],
        &mut part[320..832],
    );
    fill_offers(
        store,
        Kind::Of(Ids::Users),
        entries,
        &lists[8..24],
        &mut part[832..1856],
    );
}

// All tables, from the lists. A loaded store has at most 64 subjects.
fn fill_from(store: &[u8], target: &[u8], kind: u8, lists: &[u8], t: &mut [u8])
    requires lists_len { length lists.now ≡ 96 }
    requires t_len { length t.old ≡ 8192 }
    ensures { (P : Policy) (rest : List ℕ) → Loaded P rest store.now → Lists P lists.now → Tabled P (record { kind = kind; target = target.now }) t.new }
{
    let count = usize::from(fields::subject_count(store).min(64));
    let subjects = &lists[32..32 + count];
    t[0..96].copy_from_slice(lists);
    fill_stands(store, subjects, &mut t[96..192]);
    fill_tests(store, target, kind, lists, &mut t[192..2048]);
    fill_rows(store, subjects, &mut t[2048..8192]);
}

// The tables of a question, from any contents.
pub fn fill(store: &[u8], target: &[u8], kind: u8, t: &mut [u8])
    requires { length t.old ≡ 8192 }
    ensures { (P : Policy) (rest : List ℕ) → Loaded P rest store.now → Tabled P (record { kind = kind; target = target.now }) t.new }
{
    let mut lists = [0; 96];
    fill_lists(store, &mut lists);
    fill_from(store, target, kind, &lists, t);
}
