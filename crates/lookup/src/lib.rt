// Look-ups in a loaded store: a file's grades, the subject it stands for, the entry in force, its object. Rests on `fields` and what that rests on.
// What a reader must believe stands in specs/Lookup.antt and in gran's specs/; specs/Best.antt and specs/Index.antt say what the loops find.
#![tactic(auto)]

ghost use Rattle.std.specs.Prelude.{◌≡◌, List, ℕ, ◌≤◌, ◌<◌, eqb, length, replicate};
ghost use Rattle.gran.specs.Policy.{Policy};
ghost use Rattle.gran.specs.Lists.{place};
ghost use Rattle.gran.specs.Match.{path_at, paths_of_s, subject_of};
ghost use Rattle.store.specs.Held.{Loaded};
ghost use Rattle.fields.specs.Fields.{byte_at, entry_count, object_count};
ghost use Rattle.lookup.specs.Best.{no_best, or_else, best_of, grade_in, role_grade, object_grade};
ghost use Rattle.lookup.specs.Index.{objects_noted, entries_noted, all_noted, entry_index, object_index, is_better, PathTaken};
ghost use Rattle.lookup.specs.Lookup.{grade_of, Graded, InForce, Placed, Rows};

use rows::put;

// The most paths that a policy has, and the longest good path.
const PATHS: u8 = 96;

const LONGEST: usize = 64;

// For each path of the policy how specific it is for a file: 0 where the file is not under it, else one more than its length.
#[derive(Clone, Copy)]
pub struct Grades {
    pub of: [u8; 96],
}

// The best place so far, and its grade. No Option: where no path has a grade the place is none, as the tables hold it and `closest_in` promises.
#[derive(Clone, Copy)]
struct Best {
    place: u8,
    grade: u8,
}

impl Best {
    fn none() -> Self
        ensures { result ≡ no_best }
    {
        Best {
            place: gran::NONE,
            grade: 0,
        }
    }

    // The better of this and a place of a grade; of equals the earlier.
    fn or(self, place: u8, grade: u8) -> Self
        ensures { result ≡ or_else self place grade }
    {
        if self.grade < grade {
            Best { place, grade }
        } else {
            self
        }
    }
}

// How specific path `c` is for `file`; a path that no policy holds is not at all.
#[tactic(auto, unfolding(crate::specs::Best::grade_in))]
fn grade(store: &[u8], file: &[u8], c: u8) -> u8
    ensures { result ≡ grade_in store.now file.now c }
{
    let path = fields::path(store, c);
    if path.len() <= LONGEST && paths::under(file, path) {
        path.len() as u8 + 1
    } else {
        0
    }
}

// How specific path `q` is for `file`, which is path `c` of the policy. Of the other paths only a shorter one can have path `c` under it,
// so most are not compared.
fn grade_beside(store: &[u8], file: &[u8], c: u8, q: u8) -> u8
    ensures { (P : Policy) (rest : List ℕ) → Loaded P rest store.now → c < length P.paths → file.now ≡ path_at P.paths c → q < length P.paths → result ≡ grade_of P file.now q }
{
    if q != c && file.len() <= usize::from(fields::path_size(store, q)) {
        return 0;
    }
    grade(store, file, q)
}

// The grades of the policy's paths for any file.
#[tactic(auto, using(crate::proofs::Found::filled))]
pub fn grades_for(store: &[u8], file: &[u8]) -> Grades
    ensures { (P : Policy) (rest : List ℕ) → Loaded P rest store.now → Graded P file.now result.of }
{
    let mut of = [0; 96];
    for c in 0..fields::path_count(store).min(PATHS) {
        of[usize::from(c)] = grade(store, file, c);
    }
    Grades { of }
}

// The first place of the greatest grade among the first `count` of a row, or none where all are 0.
fn best_place<F: Fn(u8) -> u8>(count: u8, grade: F) -> u8
    requires { (i : ℕ) → i < count → F.pre grade i }
    ensures { (row : ℕ → ℕ) → ((i g : ℕ) → i < count → F.post grade i g → g ≡ row i) → result ≡ (best_of row count).place }
{
    let mut best = Best::none();
    for i in 0..count {
        best = best.or(i, grade(i));
    }
    best.place
}

// The grade of path `c`.
fn grade_of(of: &[u8], c: u8) -> u8
    ensures { result ≡ byte_at of.now c }
{
    fields::byte(of, usize::from(c))
}

// The grade of the subject of entry `i` where that is of the role.
#[tactic(auto, unfolding(crate::specs::Best::role_grade))]
fn role_grade(store: &[u8], of: &[u8], role: u8, i: u8) -> u8
    ensures { result ≡ role_grade store.now of.now role i }
{
    if fields::entry_role(store, i) == role {
        grade_of(of, fields::entry_subject(store, i))
    } else {
        0
    }
}

// The grade of the object `i` behind the one at place `first` among all objects.
#[tactic(auto, unfolding(crate::specs::Best::object_grade))]
fn object_grade(store: &[u8], of: &[u8], first: u16, i: u8) -> u8
    ensures { result ≡ object_grade store.now of.now first i }
{
    grade_of(of, fields::path_from(store, first, i))
}

// The place of the one that the file stands for in a list of the paths of S.
pub fn closest_in(store: &[u8], file: &[u8], list: &[u8]) -> u8
    requires { length list.now ≤ 64 }
    ensures { (P : Policy) (rest : List ℕ) → Loaded P rest store.now → list.now ≡ paths_of_s P → result ≡ place (eqb (subject_of P file.now)) 0 (paths_of_s P) }
{
    best_place(
        list.len() as u8,
        |i| grade(store, file, list[usize::from(i)]),
    )
}

// The number of the entry in force for the file in a role.
pub fn entry_in(store: &[u8], role: u8, of: &[u8]) -> u8
    ensures { (P : Policy) (rest f : List ℕ) → Loaded P rest store.now → Graded P f of.now → role < length P.roles → InForce P role f result }
{
    let count = fields::entry_count(store);
    best_place(count, |e| role_grade(store, of, role, e))
}

// The place in an entry of the object for the file.
pub fn object_in(store: &[u8], entry: u8, of: &[u8]) -> u8
    ensures { (P : Policy) (rest f : List ℕ) → Loaded P rest store.now → Graded P f of.now → entry < length P.entries → Placed P entry f result }
{
    let first = fields::first_object(store, entry);
    let count = fields::object_count(store, entry);
    best_place(count, |i| object_grade(store, of, first, i))
}

// Notes all entries: for each path a row of 32 cells has for each role the number of the entry that has the path as its subject.
pub fn index_entries(store: &[u8], index: &mut [u8])
    ensures { index.new ≡ entries_noted store.now (entry_count store.now) index.old }
{
    let count = fields::entry_count(store);
    for e in 0..count {
        let q = usize::from(fields::entry_subject(store, e));
        let r = usize::from(fields::entry_role(store, e));
        put(index, q * 32 + r, e);
    }
}

// Notes all objects of entry `e`.
fn note_objects(store: &[u8], e: u8, index: &mut [u8])
    ensures { index.new ≡ objects_noted store.now e (object_count store.now e) index.old }
{
    let first = fields::first_object(store, e);
    let count = fields::object_count(store, e);
    for i in 0..count {
        let q = usize::from(fields::path_from(store, first, i));
        put(index, q * 64 + usize::from(e), i);
    }
}

// Notes the objects of all entries: for each path a row of 64 cells has for each entry the place in it of the object that has the path.
pub fn index_objects(store: &[u8], index: &mut [u8])
    ensures { index.new ≡ all_noted store.now (entry_count store.now) index.old }
{
    let count = fields::entry_count(store);
    for e in 0..count {
        note_objects(store, e, index);
    }
}

// Whether a cell has something noted for a path that has a greater grade than what was found so far.
#[tactic(auto, unfolding(crate::specs::Index::is_better))]
fn is_better(cell: u8, most: u8, grade: u8) -> bool
    ensures { result ≡ is_better cell most grade }
{
    cell != gran::NONE && most < grade
}

// For each column of an index the greatest grade so far of a path that has something noted there, and what the first such path has. Two
// arrays and not one of pairs, so that many cells are done at once.
#[derive(Clone, Copy)]
struct Tops<const W: usize> {
    grades: [u8; W],
    noted: [u8; W],
}

impl<const W: usize> Tops<W> {
    fn none() -> Self
        ensures { (result.grades ≡ replicate W 0) × (result.noted ≡ replicate W 0) }
    {
        Tops {
            grades: [0; W],
            noted: [0; W],
        }
    }

    // What is noted for a path of a grade takes the place of what was found so far where that has a lower grade.
    fn take(&mut self, cells: &[u8], grade: u8)
        requires { length cells.now ≡ W }
        ensures { PathTaken cells.now grade self.old.grades self.old.noted self.new.grades self.new.noted W }
    {
        for (k, cell) in cells.iter().enumerate() {
            let (most, noted) = (self.grades[k], self.noted[k]); // read and written whatever the test says: many cells are done at once
            let better = is_better(*cell, most, grade);
            self.grades[k] = if better { grade } else { most };
            self.noted[k] = if better { *cell } else { noted };
        }
    }
}

// The entry in force in each role, and the place of the object in each entry.
#[derive(Clone, Copy)]
pub struct PathRows {
    pub force: [u8; 32],
    pub places: [u8; 64],
}

// For path `c` the entry in force in each role, and the place of the object in each entry, in one pass over the paths.
pub fn rows_of(store: &[u8], entries: &[u8], objects: &[u8], c: u8) -> PathRows
    requires { (entries.now ≡ entry_index store.now) × (objects.now ≡ object_index store.now) }
    ensures { (P : Policy) (rest : List ℕ) → Loaded P rest store.now → c < length P.paths → Rows P (path_at P.paths c) result.force result.places }
{
    let file = fields::path(store, c);
    let mut force = Tops::<32>::none();
    let mut places = Tops::<64>::none();
    for q in 0..fields::path_count(store).min(PATHS) {
        let grade = grade_beside(store, file, c, q);
        if grade != 0 {
            let role = usize::from(q) * 32;
            force.take(&entries[role..role + 32], grade);
            let entry = usize::from(q) * 64;
            places.take(&objects[entry..entry + 64], grade);
        }
    }
    PathRows {
        force: force.noted,
        places: places.noted,
    }
}
