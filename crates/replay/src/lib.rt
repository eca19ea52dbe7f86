// Replay: step records against the real rules, over a loaded store, and the last file's path. Rests on `ids`, `records` and what those rest on.
// What a reader must believe stands in specs/Replay.antt. proofs/Rows.antt and Own.antt link a verdict to real runs.
#![tactic(auto)]

ghost use Rattle.std.specs.Prelude.{◌≡◌, ◌&&◌, cond, List, ℕ, ◌<◌, eqb, ltb, length, MatchOption};
ghost use Rattle.std.proofs.Math.Bool.{So};
ghost use Rattle.gran.specs.Policy.{Policy, USER, GROUP, EXEC};
ghost use Rattle.gran.specs.Match.{path_at, object_in, modes_of, no_entry};
ghost use Rattle.gran.specs.Role.{role_of, in_force, allows};
ghost use Rattle.gran.specs.Access.{sees};
ghost use Rattle.gran.specs.Exec.{exec_may};
ghost use Rattle.gran.specs.Real.{entry, may, may_exec, access, file_of, state_of};
ghost use Rattle.store.specs.Held.{Loaded};
ghost use Rattle.fields.specs.Fields.{Handed};
ghost use Rattle.lookup.specs.Lookup.{Graded, entry_at};
ghost use Rattle.replay.specs.declared.Verdict.TheVariants.{Holds, Denied};
ghost use Rattle.replay.specs.Replay.{plainly, names, act_of, is_step, Replayed, last_file, last_area, last_place};

use gran::{Asked, Caps, Modes, Process};
use ids::Ids;
use lookup::Grades;
use records::Step;

// What a row of records says of a loaded policy: three outcomes, none of them an error.
#[derive(Clone, Copy, PartialEq, Eq)]
pub enum Verdict {
    // Every record is a real step and the access is granted at the end; the last file's path number, 255 for none.
    Holds(u8),
    // The first record, counted from 0, that is no real step.
    NoStep(usize),
    // The access is not granted at the end.
    Denied,
}

// The last file's path: the whole start where nothing was executed, else a part of the store.
#[tactic(auto, unfolding(crate::specs::Replay::last_file, crate::specs::Replay::last_area, crate::specs::Replay::last_place))]
pub fn last_file<'a>(start: &'a [u8], store: &'a [u8], number: u8) -> &'a [u8]
    ensures { Handed (last_area start.entry.ref_ptr store.entry.ref_ptr number) (last_place store.now number) (last_file start.now store.now number) result.ref_ptr result.now }
{
    if number == gran::NONE {
        start
    } else {
        fields::path(store, number)
    }
}

// The object that a file is in an entry: its path number, and its modes.
#[derive(Clone, Copy)]
struct Object {
    path: u8,
    modes: Modes,
}

#[tactic(auto, using(lookup::proofs::Found::object_path_is, lookup::proofs::Found::object_modes_is))]
fn object_for(store: &[u8], e: u8, file: &[u8]) -> Object
    ensures { (P : Policy) (rest : List ℕ) → Loaded P rest store.now → e < length P.entries → let object = object_in P (entry_at P e) file.now in (result.path ≡ object) × (result.modes.bits ≡ modes_of (entry_at P e) object) }
{
    let i = lookup::object_in(store, e, &lookup::grades_for(store, file).of);
    Object {
        path: fields::object_path(store, e, i),
        modes: Modes {
            bits: fields::object_modes(store, e, i),
        },
    }
}

// Whether the file is a path of the policy, its object in entry `e` is the one named, and has x and not h.
#[tactic(auto, using(crate::proofs::Checks::store_laws))]
fn may_run(store: &[u8], e: u8, object: u8, file: u8) -> bool
    ensures { (P : Policy) (rest : List ℕ) → Loaded P rest store.now → e < length P.entries → result ≡ (ltb file (length P.paths) && eqb object (object_in P (entry_at P e) (path_at P.paths file)) && sees (modes_of (entry_at P e) (object_in P (entry_at P e) (path_at P.paths file))) EXEC) }
{
    if fields::path_count(store) <= file {
        return false;
    }
    let found = object_for(store, e, fields::path(store, file));
    object == found.path && found.modes.executable()
}

// Whether the record's fields that its line does not carry are 0, and its kind is a step line's type.
#[tactic(auto, unfolding(crate::specs::Replay::plainly))]
fn is_plain(step: Step) -> bool
    ensures { result ≡ plainly step }
{
    match step.kind {
        Step::SPECIAL => step == Step::special(step.role),
        Step::USER => step == Step::user(step.uid),
        Step::GROUP => step == Step::group(step.gid),
        Step::EXEC => step.role == 0,
        _ => false,
    }
}

// A process, the file that it began in, and the store of the policy that it is under.
#[derive(Clone, Copy)]
pub struct Actor<'a> {
    pub store: &'a [u8],
    pub begin: &'a [u8],
    pub process: Process,
}

impl<'a> Actor<'a> {
    // The role in force.
    #[tactic(auto, unfolding(gran::specs::Role::in_force))]
    fn role(self) -> u8
        ensures { (P : Policy) (rest : List ℕ) → Loaded P rest self.entry.store.now → result ≡ in_force P self.entry.process.special (role_of P USER self.entry.process.uid) (role_of P GROUP self.entry.process.gid) }
    {
        let user = ids::role_of(self.store, ids::USER, self.process.uid);
        let group = ids::role_of(self.store, ids::GROUP, self.process.gid);
        let fallback = ids::default_role(self.store);
        gran::role_in_force(self.process.special, user, group, fallback)
    }

    // The grades of the policy's paths for the file that the process is in.
    #[tactic(auto, using(crate::proofs::Checks::file_is))]
    fn grades(self) -> Grades
        ensures { (P : Policy) (rest : List ℕ) → Loaded P rest self.entry.store.now → Graded P (file_of P self.entry.begin.now self.entry.process.file) result.of }
    {
        let file = last_file(self.begin, self.store, self.process.file);
        lookup::grades_for(self.store, file)
    }

    // The number of the entry in force; there is none where the special role is no role of the policy.
    #[tactic(auto, using(crate::proofs::Checks::store_laws), unfolding(gran::specs::Real::entry, gran::specs::Real::role, gran::specs::Real::state_of))]
    fn entry(self) -> Option<u8>
        ensures { (P : Policy) (rest : List ℕ) → Loaded P rest self.entry.store.now → let now = entry P (state_of P self.entry.begin.now self.entry.process) in MatchOption result (now ≡ no_entry) (λ e. (e < length P.entries) × (entry_at P e ≡ now)) }
    {
        let role = self.role();
        if fields::role_count(self.store) <= role {
            return None;
        }
        Some(lookup::entry_in(self.store, role, &self.grades().of))
    }

    // Whether each id stays in the record's exec, or entry `e` allows the new one.
    fn may_have(self, e: u8, step: Step) -> bool
        ensures { (P : Policy) (rest : List ℕ) → Loaded P rest self.entry.store.now → e < length P.entries → result ≡ (exec_may (eqb step.uid self.entry.process.uid) (allows (entry_at P e).users step.uid) && exec_may (eqb step.gid self.entry.process.gid) (allows (entry_at P e).groups step.gid)) }
    {
        let user = ids::allows(self.store, Ids::Users, e, step.uid);
        let group = ids::allows(self.store, Ids::Groups, e, step.gid);
        gran::exec_may(step.uid == self.process.uid, user)
            && gran::exec_may(step.gid == self.process.gid, group)
    }

    // Whether the record's exec by entry `e` is a real step, and the object is the file's.
    #[tactic(auto, using(crate::proofs::Checks::exec_parts), unfolding(gran::specs::Real::state_of))]
    fn may_exec(self, e: u8, step: Step) -> bool
        ensures { (P : Policy) (rest begin : List ℕ) → Loaded P rest self.entry.store.now → e < length P.entries → result ≡ (ltb step.file (length P.paths) && eqb step.object (object_in P (entry_at P e) (path_at P.paths step.file)) && may_exec P (entry_at P e) (state_of P begin self.entry.process) (path_at P.paths step.file) step.uid step.gid) }
    {
        may_run(self.store, e, step.object, step.file) && self.may_have(e, step)
    }

    // Whether a record whose unused fields are 0 is a real step of the process.
    #[tactic(auto, using(crate::proofs::Checks::store_laws), unfolding(crate::specs::Replay::names, crate::specs::Replay::act_of, gran::specs::Real::may, gran::specs::Real::role, gran::specs::Real::state_of))]
    fn may_do(self, step: Step) -> bool
        ensures { (P : Policy) (rest : List ℕ) → Loaded P rest self.entry.store.now → So (plainly step) → result ≡ (names P (state_of P self.entry.begin.now self.entry.process) step && may P (state_of P self.entry.begin.now self.entry.process) (act_of P step)) }
    {
        if step.kind == Step::SPECIAL {
            return ids::may_take(self.store, self.role(), step.role);
        }
        let Some(e) = self.entry() else {
            return false;
        };
        let caps = Caps {
            bits: fields::entry_caps(self.store, e),
        };
        match step.kind {
            Step::USER => caps.set_uid() && ids::allows(self.store, Ids::Users, e, step.uid),
            Step::GROUP => caps.set_gid() && ids::allows(self.store, Ids::Groups, e, step.gid),
            _ => self.may_exec(e, step),
        }
    }

    // Whether a record is a real step of the process.
    #[tactic(auto, unfolding(crate::specs::Replay::is_step))]
    pub fn is_step(self, step: Step) -> bool
        ensures { (P : Policy) (rest : List ℕ) → Loaded P rest self.entry.store.now → result ≡ is_step P (state_of P self.entry.begin.now self.entry.process) step }
    {
        is_plain(step) && self.may_do(step)
    }

    // Whether the process has the access to the target.
    #[tactic(auto, using(crate::proofs::Checks::no_access), unfolding(gran::specs::Real::access, gran::specs::Access::grants))]
    pub fn has_access(self, target: &[u8], kind: u8) -> bool
        ensures { (P : Policy) (rest : List ℕ) → Loaded P rest self.entry.store.now → result ≡ access P kind target.now (state_of P self.entry.begin.now self.entry.process) }
    {
        match self.entry() {
            Some(e) => object_for(self.store, e, target).modes.grants(kind),
            None => false,
        }
    }

    // What a row says at its end.
    fn end(self, target: &[u8], kind: u8) -> Verdict
        ensures { (P : Policy) (rest : List ℕ) → Loaded P rest self.entry.store.now → result ≡ cond (access P kind target.now (state_of P self.entry.begin.now self.entry.process)) (Holds self.entry.process.file) Denied }
    {
        if self.has_access(target, kind) {
            Verdict::Holds(self.process.file)
        } else {
            Verdict::Denied
        }
    }
}

// What a row of records says, over a loaded store: the records are walked up to the first that is no real step.
pub fn replay_loaded(store: &[u8], asked: Asked, steps: &[Step]) -> Verdict
    ensures { Replayed store.now asked.entry.start.now asked.entry.target.now asked.entry.uid asked.entry.gid asked.entry.kind steps.now result }
{
    let mut actor = Actor {
        store,
        begin: asked.start,
        process: Process::start(asked.uid, asked.gid),
    };
    for (at, step) in steps.iter().enumerate() {
        if !actor.is_step(*step) {
            return Verdict::NoStep(at);
        }
        actor.process = step.done_by(actor.process);
    }
    actor.end(asked.target, asked.kind)
}
